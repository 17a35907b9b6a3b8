// The batch program: standard input is one batch for a fresh store; the answers go to standard output, then one byte, the stop number.
#![tactic(auto)]

fn main() {
    program::run(0, 1);
}
