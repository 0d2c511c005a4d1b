// What a manager tells is seen, with the numbers of answers.
ghost use Rattle.std.specs.Prelude.{◌≡◌, ◌++◌, ◌∷◌, IfOk, List, OnOk, length, map};
ghost use Rattle.two_ends.specs.Worlds.{pair_of};
ghost use Rattle.world_laws.specs.declared.told.Told.{Told};
ghost use Rattle.world_laws.specs.Steps.{answers_in, numbered};

use crate::world::Written;
use bosh_types::Row;
use std::alloc::AllocError;
use world_laws::{Seen, SeenItem, Told};

// All of this is seen, after what was seen already, and the answers are in the network from now on.
pub(crate) fn see_all(
    written: &mut Vec<Written>,
    seen: Vec<SeenItem>,
    told: Vec<Told>,
) -> Result<Seen, AllocError>
    ensures { IfOk result (λ all. (all ≡ seen.items ++ numbered (length written.old.items) told.items)
        × (map pair_of written.new.items ≡ map pair_of written.old.items ++ answers_in told.items)) }
{
    let mut all = seen;
    for told in told {
        see(written, &mut all, told)?;
    }
    Ok(Row::from_vec(all))
}

// One thing more is seen, whatever follows it.
fn see(written: &mut Vec<Written>, seen: &mut Vec<SeenItem>, told: Told) -> Result<(), AllocError>
    ensures seen { (rest : List Told) → OnOk result (seen.new.items ++ numbered (length written.new.items) rest ≡ seen.old.items ++ numbered (length written.old.items) (told ∷ rest)) }
    ensures written { (rest : List Told) → OnOk result (map pair_of written.new.items ++ answers_in rest ≡ map pair_of written.old.items ++ answers_in (told ∷ rest)) }
{
    match told {
        Told::Passed(item) => {
            seen.push(SeenItem::In { item })?;
            Ok(())
        }
        Told::Answer { rid, body } => {
            let again = body.again()?;
            written.push(Written { rid, body })?;
            let number = written.len() as u64;
            seen.push(SeenItem::Ans {
                number,
                rid,
                body: again,
            })?;
            Ok(())
        }
        Told::Gone(rid) => {
            seen.push(SeenItem::Gone { rid })?;
            Ok(())
        }
        Told::Over(ending) => {
            seen.push(SeenItem::Over { ending })?;
            Ok(())
        }
    }
}
