// Writes the value change dump of the record log door.log to standard output, or the number of the refusal to standard error.

#![tactic(auto)]

fn main(rt: HostRuntime) {
    let mut output = rt.stdout();
    let mut error = rt.stderr();
    soak::dump_file(&rt, b"door.log", &mut output, &mut error);
}
