//! The text of an element.
ghost use Rattle.std.specs.Prelude.{◌≡◌, string_bytes, IfOk};
ghost use Rattle.svg_text.specs.Pieces.{at_text, title_text, rect_text, side_text, svg_sign_text, svg_line_text, label_text, open_text, close_text, svg_name};
ghost use Rattle.svg_text.specs.Pieces.{page_style, view_text};

use std::alloc::{AllocError, Global};

/// A place: so far to the right, and so far down.
#[derive(Clone, Copy, Debug, PartialEq, Eq)]
pub struct Corner {
    pub x: u64,
    pub y: u64,
}

/// The sides of a rectangle.
#[derive(Clone, Copy, Debug, PartialEq, Eq)]
pub struct Side {
    pub width: u64,
    pub height: u64,
}

fn at(alloc: Global, at: Corner) -> Result<String, AllocError>
    ensures { IfOk result (λ text. string_bytes text ≡ at_text at) }
{
    let x = at.x;
    let y = at.y;
    format!(in alloc; "x='{x}' y='{y}'")
}

fn title(alloc: Global, words: &str) -> Result<String, AllocError>
    ensures { IfOk result (λ text. string_bytes text ≡ title_text words.now) }
{
    format!(in alloc; "<title>{words}</title>")
}

fn sides(alloc: Global, side: Side) -> Result<String, AllocError>
    ensures { IfOk result (λ text. string_bytes text ≡ side_text side) }
{
    let width = side.width;
    let height = side.height;
    format!(in alloc; "width='{width}' height='{height}'")
}

/// A rectangle of a class, with the words that appear over it.
pub fn rect(
    alloc: Global,
    class: &str,
    corner: Corner,
    side: Side,
    words: &str,
) -> Result<String, AllocError>
    ensures { IfOk result (λ text. string_bytes text ≡ rect_text class.now corner side words.now) }
{
    let place = at(alloc, corner)?;
    let size = sides(alloc, side)?;
    let title = title(alloc, words)?;
    format!(in alloc; "<rect class='{class}' {place} {size}>{title}</rect>\n")
}

/// A sign that the picture has drawn under this name, set at a place, with the words that appear over it.
pub fn sign(alloc: Global, name: &str, corner: Corner, words: &str) -> Result<String, AllocError>
    ensures { IfOk result (λ text. string_bytes text ≡ svg_sign_text name.now corner words.now) }
{
    let place = at(alloc, corner)?;
    let title = title(alloc, words)?;
    format!(in alloc; "<use href='#{name}' {place}>{title}</use>\n")
}

/// A straight line of a class.
pub fn line(alloc: Global, class: &str, from: Corner, to: Corner) -> Result<String, AllocError>
    ensures { IfOk result (λ text. string_bytes text ≡ svg_line_text class.now from to) }
{
    let left = from.x;
    let top = from.y;
    let right = to.x;
    let foot = to.y;
    format!(in alloc; "<line class='{class}' x1='{left}' y1='{top}' x2='{right}' y2='{foot}'/>\n")
}

/// Words of a class at a place.
pub fn label(alloc: Global, class: &str, corner: Corner, words: &str) -> Result<String, AllocError>
    ensures { IfOk result (λ text. string_bytes text ≡ label_text class.now corner words.now) }
{
    let place = at(alloc, corner)?;
    format!(in alloc; "<text class='{class}' {place}>{words}</text>\n")
}

#[tactic(auto, unfolding(crate::specs::Pieces::svg_name))]
fn svg_name() -> &'static str
    ensures { result.now ≡ svg_name }
{
    "<svg xmlns='http://www.w3.org/2000/svg' role='img'\n"
}

#[tactic(auto, unfolding(crate::specs::Pieces::page_style))]
fn page_style() -> &'static str
    ensures { result.now ≡ page_style }
{
    "style='max-width:100%;height:auto'"
}

fn view(alloc: Global, side: Side, pixels: u32) -> Result<String, AllocError>
    ensures { IfOk result (λ text. string_bytes text ≡ view_text side pixels) }
{
    let width = side.width;
    let height = side.height;
    format!(in alloc; "viewBox='0 0 {width} {height}' width='{pixels}' ")
}

/// The beginning of a picture: its sides, how many pixels of a page it is wide, and what it is a picture of.
pub fn open(alloc: Global, side: Side, pixels: u32, words: &str) -> Result<String, AllocError>
    ensures { IfOk result (λ text. string_bytes text ≡ open_text side pixels words.now) }
{
    let name = svg_name();
    let view = view(alloc, side, pixels)?;
    let style = page_style();
    let title = title(alloc, words)?;
    format!(in alloc; "{name}{view}{style} aria-label='{words}'>\n{title}\n")
}

/// Its end.
#[tactic(auto, unfolding(crate::specs::Pieces::close_text))]
pub fn close() -> &'static str
    ensures { result.now ≡ close_text }
{
    "</svg>\n"
}
