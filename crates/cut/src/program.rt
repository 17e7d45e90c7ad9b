// The work of the program `cut_main`: a number and a script in, what is left of the script, or the refusal, out.
ghost use Rattle.std.specs.Prelude.{◌≡◌, ◌≤◌, length};
ghost use Rattle.script.specs.Inner.{Wrote};
ghost use Rattle.cut.specs.Program.{CutPrinted, refused_line};
ghost use Rattle.cut.specs.Inner.{ScriptPrinted, ScriptRoom};

use crate::cutting::cut_script;
use script::Text;

// The most bytes of the input: ten digits, LF, and a script of 60,000. No output is longer.
pub const CUT_INPUT_MOST: usize = 60011;

// Prints the refusal at the start of the output.
fn print_refused(output: &mut [u8]) -> usize
    requires { 11 ≤ length output.old }
    ensures { Wrote output.old output.new 0 result refused_line }
{
    let mut text = Text::behind(output, 0);
    text.push(b"refused 16\n");
    text.len
}

// Prints what is left of a script, or the refusal, at the start of the output.
fn print_script(s: &[u8], number: u32, output: &mut [u8]) -> usize
    requires { ScriptRoom s.now output.old }
    ensures { ScriptPrinted s.now number output.old output.new result }
{
    let room = s.len();
    match cut_script(s, number, &mut output[..room]) {
        Ok(length) => length,
        Err(_) => print_refused(output),
    }
}

// Prints the output for an input of a number, LF and a script: answers how many bytes it has, and leaves them at the start of the buffer. All
// else in it stays as it was.
pub fn print_cut(input: &[u8], output: &mut [u8; CUT_INPUT_MOST]) -> usize
    ensures { CutPrinted input.now output.old output.new result }
{
    if CUT_INPUT_MOST < input.len() {
        return print_refused(output);
    }
    let Some((number, at)) = script::number_then(input, 0, b'\n') else {
        return print_refused(output);
    };
    print_script(&input[at..], number, output)
}
