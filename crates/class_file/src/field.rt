//! Fields (JVMS 4.5).

ghost use Rattle.std.specs.Prelude.{◌≡◌};
ghost use Rattle.class_input.specs.Reading.{Gives, seen};
ghost use Rattle.class_names.specs.Steps.{table};
ghost use Rattle.class_file.specs.ClassReading as reading;

use class_attributes::field_attributes;
use class_input::{BadClass, Input};
use class_model::FieldDef;
use class_names::{NamedPool, next_field_type, next_name};
use lists::Seq;
use std::alloc::Global;

#[tactic(auto, unfolding(crate::specs::ClassReading::field))]
fn read_field(alloc: Global, pool: &NamedPool, input: &mut Input) -> Result<FieldDef, BadClass>
    ensures { Gives result input.new (reading.field pool.now (seen input.old)) }
{
    let flags = input.u16()?;
    let name = next_name(pool, input)?;
    let ty = next_field_type(pool, input)?;
    let constant = field_attributes(alloc, pool, input)?;
    Ok(FieldDef {
        flags,
        name,
        ty,
        constant,
    })
}

#[tactic(auto, unfolding(class_names::specs::Steps::table), using(class_input::proofs::Loops::many_goes_on, class_input::proofs::Loops::many_ends, class_input::proofs::Loops::each_is_done))]
pub fn fields(alloc: Global, pool: &NamedPool, input: &mut Input) -> Result<Seq<FieldDef>, BadClass>
    ensures { Gives result input.new (table (reading.field pool.now) (seen input.old)) }
{
    let count = input.u16()?;
    let mut fields = Seq::new(alloc);
    for _ in 0..count {
        let one = read_field(alloc, pool, input)?;
        fields.push(one)?;
    }
    Ok(fields)
}
