//! Steps that attributes share.

ghost use Rattle.std.specs.Prelude.{◌≡◌, bytes_eq};
ghost use Rattle.class_input.specs.declared.bad_class.BadClass.TheVariants.{Bad};
ghost use Rattle.class_input.specs.declared.bad_class.BadKind.TheVariants.{Twice};
ghost use Rattle.class_input.specs.Reading.{GivesBy, seen};
ghost use Rattle.class_attributes.specs.AttributeReading as reading;

use class_input::{BadClass, BadKind, Input};

/// The refusal of a second attribute of one name, whose name's index stands at a place.
pub fn twice(place: usize) -> BadClass
    ensures { result ≡ Bad place Twice }
{
    BadClass::Bad {
        place,
        kind: BadKind::Twice,
    }
}

/// Passes over the length and the content of an attribute that is dropped. All its bytes have to be there.
#[tactic(auto, unfolding(crate::specs::AttributeReading::dropped))]
pub fn drop_content(input: &mut Input) -> Result<(), BadClass>
    ensures { GivesBy (λ _. tt) result input.new (reading.dropped (seen input.old)) }
{
    let len = input.u32()?;
    input.bytes(len as usize)?;
    Ok(())
}
