// Shows the session on standard input as text that can be read, edited and written again. Where the session cannot be
// read, a message goes to standard error and nothing to standard output.
#![tactic(auto)]

use session::Place;

// One byte more than a session may have, so that a longer one is known as such.
fn main(rt: HostRuntime) {
    let mut session = [0u8; 65537];
    let input = console::read_whole(&rt, &mut rt.stdin(), b"standard input", &mut session);
    if !input.failed {
        show(&rt, &session[..input.length]);
    }
}

fn show(rt: &(impl Print + Eprint), s: &[u8]) {
    let mut out = [0u8; 512];
    let mut next = Some(Place { at: 0, offset: 0 });
    while let Some(place) = next {
        let Ok(shown) = script::show_at(s, place, &mut out) else {
            return;
        };
        if !console::print(rt, &out[..shown.length]) {
            return;
        }
        next = shown.next;
    }
}
