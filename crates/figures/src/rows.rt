// The report's rows: numbers parted by single spaces.
ghost use Rattle.std.specs.Prelude.{◌≡◌, ◌+◌, ◌≤◌, ◌<◌, ◌^◌, length, sum as list_sum};
ghost use Rattle.script.specs.Inner.{Appends};
ghost use Rattle.figures.specs.Figures.{rest, whole};
ghost use Rattle.figures.specs.Report.{ratio_text, row_text, spaced};
ghost use Rattle.figures.specs.Inner.{RowRoom, RowsRoom, figures_text, rows_text};

use crate::columns::{FAILED, Figures, PUT};
use script::Text;

// The sum of figures.
fn sum_of(figures: &[u32]) -> u32
    requires { list_sum figures.now < 2 ^ 32 }
    ensures { result ≡ list_sum figures.now }
{
    figures.iter().sum()
}

// Quotient and remainder, 0 and 0 where n is 0.
#[tactic(auto, unfolding(crate::specs::Figures::whole, region::specs::Pick::pick))]
fn whole(a: u32, n: u32) -> u32
    ensures { result ≡ whole a n }
{
    a.checked_div(n).unwrap_or(0)
}

#[tactic(auto, unfolding(crate::specs::Figures::rest, region::specs::Pick::pick))]
fn rest(a: u32, n: u32) -> u32
    ensures { result ≡ rest a n }
{
    a.checked_rem(n).unwrap_or(0)
}

// Writes quotient and remainder, and the line's end.
fn write_ratio(text: &mut Text, a: u32, n: u32)
    requires { text.old.len + 22 ≤ length text.old.out.now }
    ensures { Appends text.old text.new (ratio_text a n) }
{
    text.number(whole(a, n), b' ');
    text.number(rest(a, n), b'\n');
}

// Writes a row's figures, a space behind each.
fn write_columns(text: &mut Text, figures: &Figures)
    requires { RowRoom 121 text.old figures.now }
    ensures { Appends text.old text.new (spaced figures.now) }
{
    for figure in figures {
        text.number(*figure, b' ');
    }
}

// Writes a row's figures, and accesses per operation.
fn write_figures(text: &mut Text, figures: &Figures)
    requires { RowRoom 143 text.old figures.now }
    ensures { Appends text.old text.new (figures_text figures.now) }
{
    let accesses = sum_of(&figures[..FAILED]);
    let operations = sum_of(&figures[PUT..]);
    write_columns(text, figures);
    write_ratio(text, accesses, operations);
}

// Writes the row of a script and a thread.
pub fn write_row(text: &mut Text, script: u32, thread: u32, figures: &Figures)
    requires { RowRoom 165 text.old figures.now }
    ensures { Appends text.old text.new (row_text script thread figures.now) }
{
    text.number(script, b' ');
    text.number(thread, b' ');
    write_figures(text, figures);
}

// Writes the rows of a script's threads.
pub fn write_rows(text: &mut Text, script: u32, rows: &[Figures])
    requires { RowsRoom text.old rows.now }
    ensures { Appends text.old text.new (rows_text script 0 rows.now) }
{
    for (k, figures) in rows.iter().enumerate() {
        write_row(text, script, k as u32 + 1, figures);
    }
}
