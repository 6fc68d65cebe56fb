//! What a member tells of the paths of a round.
ghost use Rattle.std.specs.Prelude.{◌≡◌, ◌-◌, ◌*◌, Option, Some, [], ◌∷◌, map, length, IfOk, IsTrue};
ghost use Rattle.guards_model.specs.Channels.{has};
ghost use Rattle.guards_model.specs.Frames.{SourceValue, is_set, exchange_in_range};
ghost use Rattle.guards_model.specs.OralMessages.{PathValue, paths};
ghost use Rattle.oral_messages.specs.Trees.{items_told};

use crate::members::Members;
use crate::ranges::values_fit;
use guards_base::SourceWord;
use icn_frames::{Item, Items, Labels};
use std::alloc::{AllocError, Global};

/// What a member tells in the first round: its own word.
pub fn told_of_own(
    alloc: Global,
    members: &Members,
    me: u8,
    own: SourceWord,
) -> Result<Items, AllocError>
    requires set { IsTrue (is_set members.now) }
    requires mine { IsTrue (has members.now me) }
    ensures items { IfOk result (λ items. items.items ≡ (record { path = []; word = Some own } ∷ [])) }
    ensures range { IfOk result (λ items. IsTrue (exchange_in_range me (record { round = 1; items = items.items }))) }
{
    values_fit(&[Some(own)]);
    let mut items = Items::new(alloc);
    items.push(Item {
        path: Labels {
            count: 0,
            at: [0; 2],
        },
        word: Some(own),
    })?;
    Ok(items)
}

/// What a member tells of the paths of one label, where it holds these values for them.
pub fn told_of_sources(
    alloc: Global,
    members: &Members,
    me: u8,
    values: &[Option<SourceWord>],
) -> Result<Items, AllocError>
    requires set { IsTrue (is_set members.now) }
    requires mine { IsTrue (has members.now me) }
    requires many { length values.now ≡ length members.now }
    ensures items { IfOk result
        (λ items. (value : PathValue → Option SourceValue) → values.now ≡ map value (paths members.now 1) →
        items.items ≡ items_told me value (paths members.now 1)) }
    ensures range { IfOk result (λ items. IsTrue (exchange_in_range me (record { round = 2; items = items.items }))) }
{
    values_fit(values);
    let mut items = Items::new(alloc);
    items.reserve(values.len())?;
    for (place, value) in values.iter().enumerate() {
        let a = members.first_at(place);
        if a != me {
            items.push(Item {
                path: Labels {
                    count: 1,
                    at: [a, 0],
                },
                word: *value,
            })?;
        }
    }
    Ok(items)
}

/// What a member tells of the paths of two labels, where it holds these values for them.
pub fn told_of_relays(
    alloc: Global,
    members: &Members,
    me: u8,
    values: &[Option<SourceWord>],
) -> Result<Items, AllocError>
    requires set { IsTrue (is_set members.now) }
    requires mine { IsTrue (has members.now me) }
    requires many { length values.now ≡ length members.now * (length members.now - 1) }
    ensures items { IfOk result
        (λ items. (value : PathValue → Option SourceValue) → values.now ≡ map value (paths members.now 2) →
        items.items ≡ items_told me value (paths members.now 2)) }
    ensures range { IfOk result (λ items. IsTrue (exchange_in_range me (record { round = 3; items = items.items }))) }
{
    values_fit(values);
    let mut items = Items::new(alloc);
    items.reserve(values.len())?;
    for (place, value) in values.iter().enumerate() {
        let (a, b) = members.second_at(place);
        if a != me {
            if b != me {
                items.push(Item {
                    path: Labels {
                        count: 2,
                        at: [a, b],
                    },
                    word: *value,
                })?;
            }
        }
    }
    Ok(items)
}
