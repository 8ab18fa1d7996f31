// Reads settings and a sheet from standard input, and prints how each table of the sheet is laid out, or why it is refused.
#![tactic(auto)]

fn main() {
    report::run(report::Form::Layout);
}
