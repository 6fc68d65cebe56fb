//! The key `task`: the tasks with their writes.
ghost use Rattle.std.specs.Prelude.{◌≡◌, ◌++◌, ◌&&◌, nat_le, length, option_map, IfOk, IsTrue};
ghost use Rattle.std.specs.List.{list_all, list_any};
ghost use Rattle.toml.specs.View.{view, table_view};
ghost use Rattle.guards_model.specs.Expressions.{fits_or_none};
ghost use Rattle.expr_core.specs.Tree.{tree};
ghost use Rattle.document_checks.specs.Checks.{Gives};
ghost use Rattle.mission_text.specs.Tasks.{set_expression_at, four_sets_at, expressions_at, is_letter, is_name_byte, is_name, has_name, name_at, writes_at, tasks_field, are_sets, is_read_task};
ghost use Rattle.mission_text.specs.Sets.{four_trees};

use crate::expressions::{TextSizes, expression_of};
use document_checks::{
    Cause, ElementReader, ReadFault, array_of, each, field, lookup, number, only, refusal,
    required, table_of, text_of,
};
use expr_core::Expr;
use guards_base::Text;
use std::alloc::Global;
use task_table::{Sets, Task, Tasks, Write, Writes};
use toml::{Table, Value};

const WRITE_KEYS: [&str; 9] = ["block", "w0", "w1", "w2", "w3", "w4", "w5", "w6", "w7"];

const TASK_KEYS: [&str; 2] = ["name", "writes"];

/// The expression for a word, if there is one.
#[tactic(auto, unfolding(crate::specs::Tasks::set_expression_at))]
fn set_of(
    alloc: Global,
    sizes: TextSizes,
    path: &str,
    key: &str,
    fields: &Table,
) -> Result<Option<Expr>, ReadFault>
    ensures fits { IfOk result (λ e. IsTrue (fits_or_none sizes.blocks sizes.width (option_map tree e))) }
    ensures exact { Gives (option_map tree) result
        (set_expression_at sizes.blocks sizes.width path.now key.now (table_view fields.now)) }
{
    match lookup(fields, key) {
        None => Ok(None),
        Some(value) => Ok(Some(expression_of(alloc, sizes, &field(alloc, path, key)?, value)?)),
    }
}

/// The expressions for four words.
#[derive(Drop)]
struct FourSets {
    a: Option<Expr>,
    b: Option<Expr>,
    c: Option<Expr>,
    d: Option<Expr>,
}

/// The expressions for four words of a block.
//
// What is not passed on is dropped by name: a drop that a scope's end implies costs the check seconds for each value.
#[tactic(auto, unfolding(crate::specs::Tasks::four_sets_at))]
fn four_sets(
    alloc: Global,
    sizes: TextSizes,
    path: &str,
    k0: &str,
    k1: &str,
    k2: &str,
    k3: &str,
    fields: &Table,
) -> Result<FourSets, ReadFault>
    ensures fits { IfOk result (λ s. IsTrue (list_all (fits_or_none sizes.blocks sizes.width) (four_trees s))) }
    ensures exact { Gives four_trees result
        (four_sets_at sizes.blocks sizes.width path.now k0.now k1.now k2.now k3.now (table_view fields.now)) }
{
    let a = set_of(alloc, sizes, path, k0, fields)?;
    match set_of(alloc, sizes, path, k1, fields) {
        Ok(b) => match set_of(alloc, sizes, path, k2, fields) {
            Ok(c) => match set_of(alloc, sizes, path, k3, fields) {
                Ok(d) => Ok(FourSets { a, b, c, d }),
                Err(fault) => {
                    drop(a);
                    drop(b);
                    drop(c);
                    Err(fault)
                }
            },
            Err(fault) => {
                drop(a);
                drop(b);
                Err(fault)
            }
        },
        Err(fault) => {
            drop(a);
            Err(fault)
        }
    }
}

/// Four expressions, and four more.
fn joined(low: FourSets, high: FourSets) -> Sets
    ensures { result ≡ four_trees low ++ four_trees high }
{
    Sets {
        at: [low.a, low.b, low.c, low.d, high.a, high.b, high.c, high.d],
    }
}

/// The expressions for the eight words of a block.
#[tactic(auto, unfolding(crate::specs::Tasks::expressions_at))]
fn sets_of(alloc: Global, sizes: TextSizes, path: &str, fields: &Table) -> Result<Sets, ReadFault>
    ensures fits { IfOk result (λ sets. IsTrue (are_sets sizes.blocks sizes.width sets)) }
    ensures exact { Gives (λ sets. sets) result
        (expressions_at sizes.blocks sizes.width path.now (table_view fields.now)) }
{
    let low = four_sets(alloc, sizes, path, "w0", "w1", "w2", "w3", fields)?;
    match four_sets(alloc, sizes, path, "w4", "w5", "w6", "w7", fields) {
        Ok(high) => Ok(joined(low, high)),
        Err(fault) => {
            drop(low);
            Err(fault)
        }
    }
}

/// Reads the writes of a task.
#[derive(Clone, Copy)]
struct WriteReader {
    sizes: TextSizes,
}

impl ElementReader for WriteReader {
    ghost use Rattle.guards_model.specs.Tasks.{WriteValue};
    ghost use Rattle.document_checks.specs.Checks.{alone};
    ghost use Rattle.mission_text.specs.Tasks.{write_at, are_sets};

    type Element = Write;

    ghost Meaning = { WriteValue };

    ghost meaning = { λ _ write. write };

    ghost check = { λ reader. alone (write_at reader.sizes.blocks reader.sizes.width) };

    ghost holds = { λ reader write. are_sets reader.sizes.blocks reader.sizes.width write.set };

    #[tactic(auto, unfolding(crate::specs::Tasks::write_at))]
    fn read(
        &self,
        alloc: Global,
        _earlier: &[Write],
        path: &str,
        value: &Value,
    ) -> Result<Write, ReadFault> {
        let fields = table_of(alloc, value, path)?;
        only(alloc, &WRITE_KEYS, path, fields)?;
        let block = number(alloc, fields, path, "block", 0, 255)?;
        let set = sets_of(alloc, self.sizes, path, fields)?;
        Ok(Write {
            block: block as u8,
            set,
        })
    }
}

fn is_letter(byte: u8) -> bool
    ensures { result ≡ is_letter byte }
{
    97 <= byte && byte <= 122
}

fn is_name_byte(byte: u8) -> bool
    ensures { result ≡ is_name_byte byte }
{
    is_letter(byte) || 48 <= byte && byte <= 57 || byte == 95
}

/// A letter a to z, and then letters, digits and `_`; at most 32 bytes.
fn is_name(bytes: &[u8]) -> bool
    ensures { result ≡ is_name bytes.now }
{
    match bytes {
        [] => false,
        [first, rest @ ..] => begins_name(*first, rest),
    }
}

fn begins_name(first: u8, rest: &[u8]) -> bool
    ensures { result ≡ ((is_letter first && list_all is_name_byte rest.now) && nat_le (length rest.now) 31) }
{
    is_letter(first) && are_name_bytes(rest) && rest.len() <= 31
}

fn are_name_bytes(bytes: &[u8]) -> bool
    ensures { result ≡ list_all is_name_byte bytes.now }
{
    bytes.iter().all(|byte| is_name_byte(*byte))
}

fn is_taken(name: &str, earlier: &[Task]) -> bool
    ensures { result ≡ list_any (has_name name.now) earlier.now }
{
    earlier.iter().any(|task| task.name.as_str() == name)
}

/// The name of a task, which no earlier one has.
#[tactic(auto, unfolding(crate::specs::Tasks::name_at))]
fn name_of<'a>(
    alloc: Global,
    earlier: &[Task],
    path: &str,
    fields: &'a Table,
) -> Result<&'a str, ReadFault>
    ensures { Gives (λ name. name.now) result (name_at earlier.now path.now (table_view fields.now)) }
{
    let given = required(alloc, fields, path, "name")?;
    let place = field(alloc, path, "name")?;
    let name = text_of(alloc, given, &place)?;
    if !is_name(name.as_bytes()) {
        return Err(refusal(alloc, Cause::OutOfRange, &place));
    }
    if is_taken(name, earlier) {
        return Err(refusal(alloc, Cause::Duplicate, &place));
    }
    Ok(name)
}

/// The writes of a task.
#[tactic(auto, using(crate::proofs::Lists::same_list), unfolding(crate::specs::Tasks::writes_at))]
fn writes_of(
    alloc: Global,
    sizes: TextSizes,
    path: &str,
    fields: &Table,
) -> Result<Writes, ReadFault>
    ensures fits { IfOk result
        (λ writes. IsTrue (list_all (λ write. are_sets sizes.blocks sizes.width write.set) writes.items)) }
    ensures exact { Gives (λ writes. writes.items) result
        (writes_at sizes.blocks sizes.width path.now (table_view fields.now)) }
{
    let given = required(alloc, fields, path, "writes")?;
    let place = field(alloc, path, "writes")?;
    let items = array_of(alloc, given, &place)?;
    each(alloc, &WriteReader { sizes }, &place, items)
}

/// Reads the tasks.
#[derive(Clone, Copy)]
struct TaskReader {
    sizes: TextSizes,
}

impl ElementReader for TaskReader {
    ghost use Rattle.guards_model.specs.Tasks.{TaskValue};
    ghost use Rattle.mission_text.specs.Tasks.{task_at, is_read_task};

    type Element = Task;

    ghost Meaning = { TaskValue };

    ghost meaning = { λ _ task. task };

    ghost check = { λ reader. task_at reader.sizes.blocks reader.sizes.width };

    ghost holds = { λ reader. is_read_task reader.sizes.blocks reader.sizes.width };

    #[tactic(auto, using(crate::proofs::Lists::same_list), unfolding(crate::specs::Tasks::task_at))]
    fn read(
        &self,
        alloc: Global,
        earlier: &[Task],
        path: &str,
        value: &Value,
    ) -> Result<Task, ReadFault> {
        let fields = table_of(alloc, value, path)?;
        only(alloc, &TASK_KEYS, path, fields)?;
        let name = name_of(alloc, earlier, path, fields)?;
        let writes = writes_of(alloc, self.sizes, path, fields)?;
        match Text::from_str(alloc, name) {
            Ok(name) => Ok(Task { name, writes }),
            Err(_) => {
                drop(writes);
                Err(ReadFault::Memory)
            }
        }
    }
}

/// The tasks of a mission.
#[tactic(auto, using(crate::proofs::Lists::same_list), unfolding(crate::specs::Tasks::tasks_field))]
pub(crate) fn tasks_field(
    alloc: Global,
    fields: &Table,
    sizes: TextSizes,
) -> Result<Tasks, ReadFault>
    ensures fit { IfOk result (λ tasks. IsTrue (list_all (is_read_task sizes.blocks sizes.width) tasks.items)) }
    ensures exact { Gives (λ tasks. tasks.items) result (tasks_field sizes.blocks sizes.width (table_view fields.now)) }
{
    let given = required(alloc, fields, "", "task")?;
    let items = array_of(alloc, given, "task")?;
    each(alloc, &TaskReader { sizes }, "task", items)
}
