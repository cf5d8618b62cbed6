// The listing of a record's cards, and the way back. The functions inside are lent the table that they use: of the character of each
// code, or of the card byte of each character. Each that puts something is lent exactly the bytes that it writes.
#![tactic(auto)]

ghost use Rattle.std.specs.Prelude.{◌≡◌, ◌++◌, map, ◌+◌, ◌*◌, ◌≤◌, length, set};
ghost use Rattle.numbers.specs.Walk.{walk};
ghost use Rattle.numbers.specs.Cause.{checked, first_of};
ghost use Rattle.record.specs.Form.{binary_place};
ghost use Rattle.record.specs.Answer.{outcome};
ghost use Rattle.code_page.specs.Page.{latin};
ghost use Rattle.listing.specs.Listing.{card_count, card_length, line_length, listing_length, with_text, line_cause, listing_causes};
ghost use Rattle.listing.specs.Calls.{listed, list_outcome, take_outcome};
ghost use Rattle.listing.specs.Parts.{entry_of, closing, parts_by, text_by, take_by};

use numbers::{Cause, Place, Refusal};
use record::Taken;

// The entries of a table for the bytes of a slice. The library doesn't say what a slice holds after a `zip` of its `iter_mut`, so each entry
// is stored at its index.
fn put_entries(table: &[u8; 256], src: &[u8], out: &mut [u8])
    requires { length out.old ≡ length src.now }
    ensures { out.new ≡ map (entry_of table.now) src.now }
{
    for (i, byte) in src.iter().enumerate() {
        out[i] = table[*byte as usize];
    }
}

// A part of 80 bytes, or of 81: the entries of a table for 80 bytes, and behind them a line feed where there is room for one.
fn put_part(table: &[u8; 256], src: &[u8], out: &mut [u8])
    requires { (length src.now ≡ card_length) × (card_length + length (closing (length out.old)) ≡ length out.old) }
    ensures { out.new ≡ map (entry_of table.now) src.now ++ closing (length out.old) }
{
    let (entries, feed) = out.split_at_mut(80);
    put_entries(table, src, entries);
    feed.fill(b'\n');
}

// 40 parts, which fill out, of bytes that stand `from` apart: the lines of cards, or the cards of lines. The library doesn't say what a slice
// holds after `chunks_exact_mut`, so each part goes to its place.
fn put_parts(table: &[u8; 256], src: &[u8], from: usize, size: usize, out: &mut [u8])
    requires { (card_length ≤ from) × (from ≤ line_length) × (size ≤ line_length) × (card_length + length (closing size) ≡ size) × (length src.now ≡ card_count * from) × (length out.old ≡ card_count * size) }
    ensures { out.new ≡ parts_by table.now from size src.now }
{
    for i in 0..40 {
        let at = i * from;
        let to = i * size;
        put_part(table, &src[at..at + 80], &mut out[to..to + size]);
    }
}

// Lists the cards of a record, by the table of characters.
fn list_by(table: &[u8; 256], record: &[u8], out: &mut [u8]) -> Result<usize, Refusal>
    ensures { listed result out.new ≡ list_outcome table.now «record».now out.old }
{
    record::judge_record(record)?;
    if out.len() < 3240 {
        return Err(Refusal {
            cause: Cause::ShortOutput,
            place: Place(3240),
        });
    }
    put_parts(table, &record[3..3203], 80, 81, &mut out[..3240]);
    Ok(3240)
}

// Lists the cards of a record, by code page 037, into the front of an output, and returns the length of the listing.
pub fn list_cards(record: &[u8], out: &mut [u8]) -> Result<usize, Refusal>
    ensures { listed result out.new ≡ list_outcome latin «record».now out.old }
{
    list_by(&code_page::characters(), record, out)
}

// 17: the first 81st byte that isn't a line feed.
fn check_lines(listing: &[u8]) -> Result<(), Refusal>
    requires { length listing.now ≡ listing_length }
    ensures { checked result ≡ first_of (walk (line_cause listing.now) line_length card_count card_length) }
{
    for i in 0..40 {
        let at = 80 + i * 81;
        if listing[at] != b'\n' {
            return Err(Refusal {
                cause: Cause::Listing,
                place: Place(at),
            });
        }
    }
    Ok(())
}

// 17, by length and then by place.
#[tactic(auto, unfolding(crate::specs::Listing::listing_causes))]
fn check_listing(listing: &[u8]) -> Result<(), Refusal>
    ensures { checked result ≡ listing_causes listing.now }
{
    if listing.len() != 3240 {
        return Err(Refusal {
            cause: Cause::Listing,
            place: Place(listing.len()),
        });
    }
    check_lines(listing)
}

// The card byte of each character: its code, and 40 for the character of the code 00.
fn card_bytes(codes: [u8; 256], zero: u8) -> [u8; 256]
    ensures { result ≡ set codes zero 0x40 }
{
    let mut bytes = codes;
    bytes[zero as usize] = 0x40;
    bytes
}

// The record with the text of a listing, which fills out.
fn put_record(bytes: &[u8; 256], record: &[u8], listing: &[u8], out: &mut [u8])
    requires { (binary_place ≤ length «record».now) × (length listing.now ≡ listing_length) × (length out.old ≡ length «record».now) }
    ensures { out.new ≡ with_text «record».now (text_by bytes.now listing.now) }
{
    slices::copy(&record[..3], &mut out[..3]);
    put_parts(bytes, listing, 81, 80, &mut out[3..3203]);
    slices::copy(&record[3203..], &mut out[3203..]);
}

// Takes a listing back, by the table of card bytes.
fn take_by(
    bytes: &[u8; 256],
    record: &[u8],
    listing: &[u8],
    out: &mut [u8],
) -> Result<Taken, Refusal>
    ensures { outcome result out.new ≡ take_by bytes.now «record».now listing.now out.old }
{
    let own = record::judge_record(record)?;
    check_listing(listing)?;
    let length = record.len();
    if out.len() < length {
        return Err(Refusal {
            cause: Cause::ShortOutput,
            place: Place(length),
        });
    }
    put_record(bytes, record, listing, &mut out[..length]);
    Ok(Taken {
        traces: own.traces,
        samples: own.samples,
        length,
    })
}

// Takes a corrected listing back, by code page 037: the record with its text, into the front of an output.
pub fn take_cards(record: &[u8], listing: &[u8], out: &mut [u8]) -> Result<Taken, Refusal>
    ensures { outcome result out.new ≡ take_outcome latin «record».now listing.now out.old }
{
    let bytes = card_bytes(code_page::codes(), code_page::characters()[0]);
    take_by(&bytes, record, listing, out)
}
