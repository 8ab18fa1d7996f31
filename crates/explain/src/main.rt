// Reads settings and a sheet from standard input, and prints for each table of the sheet why its columns are as wide as they are, and which of its
// entries are missing, or why the sheet is refused.
#![tactic(auto)]

fn main() {
    report::run(report::Form::Explain);
}
