// The fields of a reel's headers: where one begins, how wide it is, and the signed number in it.
#![tactic(auto)]

ghost use Rattle.std.specs.Prelude.{◌≡◌};
ghost use Rattle.numbers.specs.Places.{place_no, field_place};
ghost use Rattle.reel.specs.Layout.{field_number};
ghost use Rattle.header_fields.specs.HeaderField.{bytes_of, field_of};

mod header_field;

pub use header_field::{Field, Width};
use numbers::{Number, Place};

impl Width {
    // The bytes of the field.
    pub fn bytes(self) -> u32
        ensures { result ≡ bytes_of self }
    {
        match self {
            Width::Two => 2,
            Width::Four => 4,
        }
    }
}

impl Field {
    // The place of the field, in a header whose byte number 1 stands at the place start.
    pub fn place(self, start: Place) -> Place
        ensures { result ≡ field_place start self.begins }
    {
        places::field_at(start, self.begins)
    }

    // The signed number in the field, in a header whose byte number 1 stands at the place start.
    pub fn number(self, s: &[u8], start: Place) -> i32
        ensures { result ≡ field_number s.now (place_no start) (field_of self) }
    {
        let place = self.place(start);
        match self.width {
            Width::Two => i32::from(slices::number_at::<u16>(s, place).signed()),
            Width::Four => slices::number_at::<u32>(s, place).signed(),
        }
    }
}
