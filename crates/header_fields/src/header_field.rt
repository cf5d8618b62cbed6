// A field of a header.

ghost use Rattle.std.specs.Prelude.{◌≤◌};
ghost use Rattle.numbers.specs.Places.{byte_no};

use numbers::ByteNo;

// The width of a field: two bytes, or four.
#[derive(Clone, Copy)]
pub enum Width {
    Two,
    Four,
}

// A field of a header: the byte number where it begins, and its width.
#[derive(Clone, Copy)]
pub struct Field {
    pub begins: ByteNo,
    pub width: Width,
    ghost counted: { 1 ≤ byte_no begins },
}
