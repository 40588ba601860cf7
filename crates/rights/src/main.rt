// Prints the sheet of permissions: 384 answers, a line each, computed from the rules.
#![tactic(auto)]

fn main(rt: HostRuntime) {
    let out = permissions::sheet_text();
    output::write_or_fail(&rt, &out, "rights: the answers cannot be written");
}
