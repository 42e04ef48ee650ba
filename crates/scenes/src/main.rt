// Draws chosen lines of built-in set-ups, and prints the runs of each and the status after it. (The set-ups are lists of calls, some alike
// but for their numbers: a table of them with one loop would hide which registers and bytes a line is drawn from.)
#![tactic(auto)]

mod fresh;
mod modes;
mod print;
mod put;
mod sprite;
mod worked;

fn main(rt: HostRuntime) {
    worked::show_all(rt.stdout());
    modes::show_all(rt.stdout());
    sprite::show_all(rt.stdout());
}
