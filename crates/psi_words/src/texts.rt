//! The texts of the program.
ghost use Rattle.std.specs.Prelude.{◌≡◌};
ghost use Rattle.psi_words.specs.Texts.{help_lines, status_line_of};

/// The line on standard error for a status of the program, without its end. It is empty for every status that has none:
/// the lines are those of 2 to 8.
pub fn status_line(status: u8) -> &'static str
    ensures { result.now ≡ status_line_of status }
{
    match status {
        2 => "psi: words not understood",
        3 => "psi: parameters refused",
        4 => "psi: bad input",
        5 => "psi: read fault",
        6 => "psi: write fault",
        7 => "psi: no memory",
        8 => "psi: items crowded",
        _ => "",
    }
}

/// The text of `help`: one line for each command with its words, in the order of the table of commands. Each line ends
/// with the byte 10.
pub fn help_text() -> &'static str
    ensures { result.now ≡ help_lines }
{
    "\
serve ROWS CAPACITY UNITS WORKERS BUILDERS
replay ROWS CAPACITY UNITS
params ROWS CAPACITY UNITS
ask ROWS CAPACITY UNITS SEED SESSION NUMBER
open ROWS CAPACITY UNITS SEED FILE
demo NUMBER WORKERS
help
"
}
