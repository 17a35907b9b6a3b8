// The batch program on one file after the other, each for a fresh store of its own: the file's name, a line, and its output, a line.
#![tactic(auto)]

use std::fs;
use std::os::fd::AsRawFd;

fn case(rt: &HostRuntime, name: &str) {
    match fs::open(rt, name) {
        Ok(file) => {
            io::write_all(1, name.as_bytes());
            io::write_all(1, b"\n");
            program::run(file.as_raw_fd(), 1);
            io::write_all(1, b"\n");
        }
        Err(e) => {
            let _ = eprintln!(rt; "{name}: {e}");
        }
    }
}

fn main(rt: HostRuntime) {
    case(&rt, "stop-11");
    case(&rt, "stop-11-page");
    case(&rt, "stop-12");
    case(&rt, "stop-13");
    case(&rt, "stop-14");
    case(&rt, "longer");
    case(&rt, "named");
    case(&rt, "withdrawn");
    case(&rt, "names");
    case(&rt, "orders");
    case(&rt, "stop-13-address");
    case(&rt, "stop-11-name");
    case(&rt, "stop-13-name");
    case(&rt, "weekly");
}
