//! What an expression names.
ghost use Rattle.std.specs.Prelude.{◌≡◌, ◌<◌, ℕ, ◌||◌, ◌==◌};
ghost use Rattle.expr_core.specs.Tree.{tree};
ghost use Rattle.context_blocks.specs.BlockSets.{flag_at};
ghost use Rattle.table_flow.specs.Flow.{names_input, names_word, word_number};

use crate::flow::{Flow, WORDS};
use expr_core::Expr;

/// Sets the flag of a word.
fn flag_word(words: &mut [bool; WORDS], block: u8, word: u8)
    ensures { (w : ℕ) → w < 2048 → flag_at words.new w ≡ (flag_at words.old w || word_number block word == w) }
{
    let number = usize::from(block) * 8 + usize::from(word);
    if number < WORDS {
        words[number] = true;
    }
}

/// Sets the flag of an input.
fn flag_input(inputs: &mut [bool; 4], place: u8)
    ensures { (k : ℕ) → k < 4 → flag_at inputs.new k ≡ (flag_at inputs.old k || place == k) }
{
    let number = usize::from(place);
    if number < 4 {
        inputs[number] = true;
    }
}

/// Sets the flag of the word of an output.
pub(crate) fn flag_output(words: &mut [bool; WORDS], output: (u8, u8))
    ensures { (w : ℕ) → w < 2048 → flag_at words.new w ≡ (flag_at words.old w || word_number output.0 output.1 == w) }
{
    let (block, word) = output;
    flag_word(words, block, word);
}

/// Sets the flags of the words and inputs that an expression names.
pub(crate) fn flag_names(expr: &Expr, flow: &mut Flow)
    ensures words { (w : ℕ) → w < 2048 → flag_at flow.new.words w ≡ (flag_at flow.old.words w
        || names_word (tree expr.now) w) }
    ensures inputs { (k : ℕ) → k < 4 → flag_at flow.new.inputs k ≡ (flag_at flow.old.inputs k
        || names_input (tree expr.now) k) }
    ensures written { flow.new.written ≡ flow.old.written }
{
    match expr {
        Expr::Number(_) | Expr::Cycle => {}
        Expr::Input(place) => flag_input(&mut flow.inputs, *place),
        Expr::Word { block, word } => flag_word(&mut flow.words, *block, *word),
        Expr::Neg(part) => flag_names(part.get(), flow),
        Expr::Binary(_, left, right) => {
            flag_names(left.get(), flow);
            flag_names(right.get(), flow);
        }
        Expr::Native(_, a, b, c) => {
            flag_names(a.get(), flow);
            flag_names(b.get(), flow);
            flag_names(c.get(), flow);
        }
        Expr::Pick(a, b, c) => {
            flag_names(a.get(), flow);
            flag_names(b.get(), flow);
            flag_names(c.get(), flow);
        }
    }
}
