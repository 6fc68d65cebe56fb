//! The key `init`: the blocks that do not begin with zero.
ghost use Rattle.std.specs.Prelude.{◌≡◌, ◌≤◌, codes, length, slice_set, IfOk, IsTrue};
ghost use Rattle.std.specs.List.{list_all, list_any};
ghost use Rattle.toml.specs.View.{view, table_view};
ghost use Rattle.guards_model.specs.Contexts.{zeroed};
ghost use Rattle.guards_model.specs.Missions.{is_context};
ghost use Rattle.document_checks.specs.declared.why.Cause.TheVariants.{Duplicate};
ghost use Rattle.document_checks.specs.Checks.{Gives, Refuses, field, integers};
ghost use Rattle.mission_text.specs.Blocks.{names_block, is_block, is_init_block, with_blocks, init_blocks_at, initial_at, initial_field};

use crate::words::are_words;
use context_blocks::{Block, Context};
use document_checks::{
    Cause, ElementReader, ReadFault, each, field, integers, lookup, number, only, refusal,
    required, sized, table_of,
};
use guards_base::Sequence;
use std::alloc::{AllocError, Global};
use toml::{Table, Value};

/// A block that `init` names, and its words.
#[derive(Clone, Copy, Debug, PartialEq, Eq)]
pub struct InitBlock {
    pub block: u32,
    pub words: [i64; 8],
}

const KEYS: [&str; 2] = ["block", "words"];

/// Reads the elements of `init` for so many blocks.
#[derive(Clone, Copy)]
struct BlockReader {
    blocks: u16,
    ghost some: { 1 ≤ blocks },
}

impl ElementReader for BlockReader {
    ghost use Rattle.mission_text.specs.declared.blocks.InitBlock.{InitBlock};
    ghost use Rattle.mission_text.specs.Blocks.{init_block_at, is_init_block};

    type Element = InitBlock;

    ghost Meaning = { InitBlock };

    ghost meaning = { λ _ block. block };

    ghost check = { λ reader. init_block_at reader.blocks };

    ghost holds = { λ reader. is_init_block reader.blocks };

    #[tactic(auto, using(crate::proofs::Lists::same_list), unfolding(crate::specs::Blocks::init_block_at))]
    fn read(
        &self,
        alloc: Global,
        earlier: &[InitBlock],
        path: &str,
        value: &Value,
    ) -> Result<InitBlock, ReadFault> {
        let fields = table_of(alloc, value, path)?;
        only(alloc, &KEYS, path, fields)?;
        let most = u32::from(self.blocks).saturating_sub(1);
        let block = number(alloc, fields, path, "block", 0, most)?;
        if is_named(block, earlier) {
            return Err(duplicate(alloc, path));
        }
        let given = required(alloc, fields, path, "words")?;
        let words = words_of(alloc, given, path)?;
        Ok(InitBlock { block, words })
    }
}

/// The fault of an element that names a block which an earlier one names.
fn duplicate(alloc: Global, path: &str) -> ReadFault
    ensures { Refuses Duplicate (field path.now (codes "block")) result }
{
    match field(alloc, path, "block") {
        Ok(place) => refusal(alloc, Cause::Duplicate, &place),
        Err(_) => ReadFault::Memory,
    }
}

/// The eight words of an element. The path of their key is dropped by name: a drop that is implied at each exit costs
/// the check more.
fn words_of(alloc: Global, given: &Value, path: &str) -> Result<[i64; 8], ReadFault>
    ensures exact { Gives (λ words. words) result (integers 8 (field path.now (codes "words")) (view given.now)) }
    ensures whole { IfOk result (λ words. IsTrue (is_block words)) }
{
    let place = field(alloc, path, "words")?;
    let list = integers(alloc, 8, &place, given);
    drop(place);
    let list = list?;
    are_words(list.as_slice());
    Ok(eight(list.as_slice()))
}

fn is_named(block: u32, earlier: &[InitBlock]) -> bool
    ensures { result ≡ list_any (names_block block) earlier.now }
{
    earlier.iter().any(|e| e.block == block)
}

/// Eight integers as an array.
fn eight(list: &[i64]) -> [i64; 8]
    requires { length list.now ≡ 8 }
    ensures { result ≡ list.now }
{
    let mut words = [0; 8];
    words.copy_from_slice(list);
    words
}

/// Reads the elements of `init`.
#[tactic(auto, using(crate::proofs::Lists::same_list), unfolding(crate::specs::Blocks::init_blocks_at))]
fn init_blocks_of(
    alloc: Global,
    value: &Value,
    blocks: u16,
    path: &str,
) -> Result<Sequence<InitBlock>, ReadFault>
    requires { 1 ≤ blocks }
    ensures exact { Gives (λ list. list.items) result (init_blocks_at blocks path.now (view value.now)) }
    ensures holds { IfOk result (λ list. IsTrue (list_all (is_init_block blocks) list.items)) }
{
    let items = sized(alloc, value, 0, 256, path)?;
    each(alloc, &BlockReader { blocks }, path, items)
}

/// Sets some blocks of a context.
fn set_blocks(context: &mut Context, named: &[InitBlock])
    requires { IsTrue (list_all (is_init_block (length context.old)) named.now) }
    ensures { context.new ≡ with_blocks named.now context.old }
{
    match named {
        [] => {}
        [first, rest @ ..] => {
            set_block(context, first);
            set_blocks(context, rest);
        }
    }
}

fn set_block(context: &mut Context, named: &InitBlock)
    requires { IsTrue (is_init_block (length context.old) named.now) }
    ensures set { context.new ≡ slice_set context.old named.now.block named.now.words }
    ensures count { length context.new ≡ length context.old }
{
    let _few = context.len();
    let words = named.words;
    context.set_block(named.block as u8, Block { words });
}

/// A context of so many blocks of zeros, in which some are set.
#[tactic(auto, using(crate::proofs::Contexts::whole_start))]
fn context_of(alloc: Global, blocks: u16, named: &[InitBlock]) -> Result<Context, AllocError>
    requires some { 1 ≤ blocks }
    requires few { blocks ≤ 256 }
    requires named { IsTrue (list_all (is_init_block blocks) named.now) }
    ensures exact { IfOk result (λ context. context ≡ with_blocks named.now (zeroed blocks)) }
    ensures whole { IfOk result (λ context. IsTrue (is_context blocks context)) }
{
    let mut context = Context::zeroed(alloc, blocks)?;
    set_blocks(&mut context, named);
    Ok(context)
}

#[tactic(auto, unfolding(crate::specs::Blocks::initial_at))]
fn initial_of(alloc: Global, value: &Value, blocks: u16, path: &str) -> Result<Context, ReadFault>
    requires some { 1 ≤ blocks }
    requires few { blocks ≤ 256 }
    ensures exact { Gives (λ context. context) result (initial_at blocks path.now (view value.now)) }
    ensures whole { IfOk result (λ context. IsTrue (is_context blocks context)) }
{
    let named = init_blocks_of(alloc, value, blocks, path)?;
    Ok(context_of(alloc, blocks, named.as_slice())?)
}

/// The context with which all channels begin.
#[tactic(auto, unfolding(crate::specs::Blocks::initial_field))]
pub(crate) fn initial_field(
    alloc: Global,
    fields: &Table,
    blocks: u16,
) -> Result<Context, ReadFault>
    requires some { 1 ≤ blocks }
    requires few { blocks ≤ 256 }
    ensures exact { Gives (λ context. context) result (initial_field blocks (table_view fields.now)) }
    ensures whole { IfOk result (λ context. IsTrue (is_context blocks context)) }
{
    match lookup(fields, "init") {
        Some(value) => initial_of(alloc, value, blocks, "init"),
        None => Ok(context_of(alloc, blocks, &[])?),
    }
}
