// The library for C: each routine of cabin.h, which calls the routine of the same name of a crate library* and says what that
// says. Numbers cross as they are, and arrays as a pointer and a length.
#![tactic(auto)]

ghost use Rattle.lent.specs.Given.{Given, GivenNumbers, GivenWholes, bytes_after, in_front};
ghost use Rattle.library.specs.Answers.{apsides_in, one_in, sight_in, transfer_time_in, wheel_in};
ghost use Rattle.library_advances.specs.Advances.{advance_by_in, advance_within_in};
ghost use Rattle.library_burn.specs.Burns.{burn_in};
ghost use Rattle.library_desk.specs.Asked.{ask_after, ask_in};
ghost use Rattle.library_lines.specs.Listing.{line_in, record_line, record_line_in};
ghost use Rattle.library_records.specs.Records.{offset_in, read_in, record_from, record_written, write_in, written};
ghost use Rattle.library_replay.specs.Steps.{step_in};
ghost use Rattle.library_settings.specs.Versions.{back_after, back_in, look_in, store_after, store_in};
ghost use Rattle.library_solves.specs.Solves.{advance_in, transfer_in, trial_in};
ghost use Rattle.library_stream.specs.Parts.{room_after, take_in};
ghost use Rattle.library_transfers.specs.Transfers.{transfer_by_in, transfer_within_in};
ghost use Rattle.lines.specs.Lines.{heading_text, line_room, refused_text};
ghost use Rattle.root.specs.Root.{root_answer};
ghost use Rattle.series.specs.Series.{c_answer, s_answer};
ghost use Rattle.session.specs.Offset.{offset_bytes};
ghost use Rattle.std.specs.Prelude.{◌≡◌};

#[unsafe(no_mangle)]
pub extern "C" fn cabin_root(x: f64, out: &mut [f64]) -> u32
    ensures { GivenNumbers (one_in (root_answer x) out.old) out.old out.new result }
{
    library::cabin_root(x, out)
}

#[unsafe(no_mangle)]
pub extern "C" fn cabin_c(xi: f64, out: &mut [f64]) -> u32
    ensures { GivenNumbers (one_in (c_answer xi) out.old) out.old out.new result }
{
    library::cabin_c(xi, out)
}

#[unsafe(no_mangle)]
pub extern "C" fn cabin_s(xi: f64, out: &mut [f64]) -> u32
    ensures { GivenNumbers (one_in (s_answer xi) out.old) out.old out.new result }
{
    library::cabin_s(xi, out)
}

#[unsafe(no_mangle)]
pub extern "C" fn cabin_trial(
    asked: f64,
    lo: i64,
    hi: i64,
    jlo: u64,
    tlo: f64,
    jhi: u64,
    thi: f64,
    k: u64,
    whole: &mut [u64],
) -> u32
    ensures { GivenWholes (trial_in asked lo hi jlo tlo jhi thi k whole.old) whole.old whole.new result }
{
    library_solves::cabin_trial(asked, lo, hi, jlo, tlo, jhi, thi, k, whole)
}

#[unsafe(no_mangle)]
pub extern "C" fn cabin_advance(
    mu: f64,
    state: &[f64],
    t: f64,
    out: &mut [f64],
    whole: &mut [u64],
) -> u32
    ensures { Given (advance_in mu state.now t out.old whole.old) out.old whole.old out.new whole.new result }
{
    library_solves::cabin_advance(mu, state, t, out, whole)
}

#[unsafe(no_mangle)]
pub extern "C" fn cabin_transfer_velocity(
    mu: f64,
    first: &[f64],
    second: &[f64],
    way: u64,
    normal: &[f64],
    t: f64,
    out: &mut [f64],
    whole: &mut [u64],
) -> u32
    ensures { Given (transfer_in mu first.now second.now way normal.now t out.old whole.old) out.old whole.old out.new whole.new result }
{
    library_solves::cabin_transfer_velocity(mu, first, second, way, normal, t, out, whole)
}

#[unsafe(no_mangle)]
pub extern "C" fn cabin_advance_within(
    mu: f64,
    state: &[f64],
    t: f64,
    times: &[f64],
    from: &[u64],
    limit: u64,
    out: &mut [f64],
    whole: &mut [u64],
) -> u32
    ensures { Given (advance_within_in mu state.now t times.now from.now limit out.old whole.old) out.old whole.old out.new whole.new result }
{
    library_advances::cabin_advance_within(mu, state, t, times, from, limit, out, whole)
}

#[unsafe(no_mangle)]
pub extern "C" fn cabin_transfer_velocity_within(
    mu: f64,
    first: &[f64],
    second: &[f64],
    way: u64,
    normal: &[f64],
    t: f64,
    times: &[f64],
    from: &[u64],
    limit: u64,
    out: &mut [f64],
    whole: &mut [u64],
) -> u32
    ensures { Given (transfer_within_in mu first.now second.now way normal.now t times.now from.now limit out.old whole.old) out.old whole.old out.new whole.new result }
{
    library_transfers::cabin_transfer_velocity_within(
        mu, first, second, way, normal, t, times, from, limit, out, whole,
    )
}

#[unsafe(no_mangle)]
pub extern "C" fn cabin_advance_by(
    used: &[u8],
    k: u64,
    mu: f64,
    state: &[f64],
    t: f64,
    times: &[f64],
    from: &[u64],
    limit: u64,
    out: &mut [f64],
    whole: &mut [u64],
) -> u32
    ensures { Given (advance_by_in used.now k mu state.now t times.now from.now limit out.old whole.old) out.old whole.old out.new whole.new result }
{
    library_advances::cabin_advance_by(used, k, mu, state, t, times, from, limit, out, whole)
}

#[unsafe(no_mangle)]
pub extern "C" fn cabin_transfer_velocity_by(
    used: &[u8],
    k: u64,
    mu: f64,
    first: &[f64],
    second: &[f64],
    way: u64,
    normal: &[f64],
    t: f64,
    times: &[f64],
    from: &[u64],
    limit: u64,
    out: &mut [f64],
    whole: &mut [u64],
) -> u32
    ensures { Given (transfer_by_in used.now k mu first.now second.now way normal.now t times.now from.now limit out.old whole.old) out.old whole.old out.new whole.new result }
{
    library_transfers::cabin_transfer_velocity_by(
        used, k, mu, first, second, way, normal, t, times, from, limit, out, whole,
    )
}

#[unsafe(no_mangle)]
pub extern "C" fn cabin_transfer_time(
    mu: f64,
    state: &[f64],
    sin: f64,
    cos: f64,
    out: &mut [f64],
) -> u32
    ensures { GivenNumbers (transfer_time_in mu state.now sin cos out.old) out.old out.new result }
{
    library::cabin_transfer_time(mu, state, sin, cos, out)
}

#[unsafe(no_mangle)]
pub extern "C" fn cabin_apsides(mu: f64, state: &[f64], out: &mut [f64], whole: &mut [u64]) -> u32
    ensures { Given (apsides_in mu state.now out.old whole.old) out.old whole.old out.new whole.new result }
{
    library::cabin_apsides(mu, state, out, whole)
}

#[unsafe(no_mangle)]
pub extern "C" fn cabin_constant_height(
    body: u64,
    radius: f64,
    mu: f64,
    active: &[f64],
    ta: i64,
    passive: &[f64],
    tp: i64,
    t2: i64,
    t3: i64,
    out: &mut [f64],
    whole: &mut [u64],
) -> u32
    ensures { Given (burn_in (record { body = body; radius = radius; mu = mu }) active.now ta passive.now tp t2 t3 out.old whole.old) out.old whole.old out.new whole.new result }
{
    library_burn::cabin_constant_height(
        body, radius, mu, active, ta, passive, tp, t2, t3, out, whole,
    )
}

#[unsafe(no_mangle)]
pub extern "C" fn cabin_wheel(e: u64, out: &mut [f64]) -> u32
    ensures { GivenNumbers (wheel_in e out.old) out.old out.new result }
{
    library::cabin_wheel(e, out)
}

#[unsafe(no_mangle)]
pub extern "C" fn cabin_sight(
    active: &[f64],
    passive: &[f64],
    e: u64,
    horizontal: &[f64],
    vertical: &[f64],
    out: &mut [f64],
) -> u32
    ensures { GivenNumbers (sight_in active.now passive.now e horizontal.now vertical.now out.old) out.old out.new result }
{
    library::cabin_sight(active, passive, e, horizontal, vertical, out)
}

#[unsafe(no_mangle)]
pub extern "C" fn cabin_read(
    session: &[u8],
    at: usize,
    offset: i16,
    out: &mut [f64],
    whole: &mut [u64],
) -> u32
    ensures { Given (read_in session.now (record { at = at; offset = offset }) out.old whole.old) out.old whole.old out.new whole.new result }
{
    library_records::cabin_read(session, at, offset, out, whole)
}

#[unsafe(no_mangle)]
pub extern "C" fn cabin_take_next(
    at: usize,
    offset: i16,
    kept: usize,
    room: &mut [u8],
    part: &[u8],
    from: usize,
    out: &mut [f64],
    whole: &mut [u64],
) -> u32
    ensures { (Given (take_in (record { at = at; offset = offset }) kept room.old part.now from out.old whole.old) out.old whole.old out.new whole.new result) × (room.new ≡ room_after (record { at = at; offset = offset }) kept room.old part.now from out.old whole.old) }
{
    library_stream::cabin_take_next(at, offset, kept, room, part, from, out, whole)
}

#[unsafe(no_mangle)]
pub extern "C" fn cabin_write(
    buf: &mut [u8],
    at: usize,
    kind: u64,
    vehicle: u8,
    body: u8,
    time: i64,
    numbers: &[f64],
    whole: &mut [u64],
) -> u32
    ensures { (GivenWholes (write_in buf.old at kind vehicle body time numbers.now whole.old) whole.old whole.new result) × (buf.new ≡ bytes_after (write_in buf.old at kind vehicle body time numbers.now whole.old) (record_written buf.old at (record_from kind vehicle body time numbers.now)) buf.old) }
{
    library_records::cabin_write(buf, at, kind, vehicle, body, time, numbers, whole)
}

#[unsafe(no_mangle)]
pub extern "C" fn cabin_write_offset(
    buf: &mut [u8],
    at: usize,
    minutes: i16,
    whole: &mut [u64],
) -> u32
    ensures { (GivenWholes (offset_in buf.old at minutes whole.old) whole.old whole.new result) × (buf.new ≡ bytes_after (offset_in buf.old at minutes whole.old) (written buf.old at 8 (offset_bytes minutes)) buf.old) }
{
    library_records::cabin_write_offset(buf, at, minutes, whole)
}

#[unsafe(no_mangle)]
pub extern "C" fn cabin_heading(line: &mut [u8], whole: &mut [u64]) -> u32
    ensures { (GivenWholes (line_in line_room heading_text line.old whole.old) whole.old whole.new result) × (line.new ≡ bytes_after (line_in line_room heading_text line.old whole.old) (in_front heading_text line.old) line.old) }
{
    library_lines::cabin_heading(line, whole)
}

#[unsafe(no_mangle)]
pub extern "C" fn cabin_record_line(
    kind: u64,
    vehicle: u8,
    time: i64,
    offset: i16,
    line: &mut [u8],
    whole: &mut [u64],
) -> u32
    ensures { (GivenWholes (record_line_in kind (record_line kind vehicle time offset) line.old whole.old) whole.old whole.new result) × (line.new ≡ bytes_after (record_line_in kind (record_line kind vehicle time offset) line.old whole.old) (in_front (record_line kind vehicle time offset) line.old) line.old) }
{
    library_lines::cabin_record_line(kind, vehicle, time, offset, line, whole)
}

#[unsafe(no_mangle)]
pub extern "C" fn cabin_refused_line(number: u8, at: u64, line: &mut [u8], whole: &mut [u64]) -> u32
    ensures { (GivenWholes (line_in line_room (refused_text number at) line.old whole.old) whole.old whole.new result) × (line.new ≡ bytes_after (line_in line_room (refused_text number at) line.old whole.old) (in_front (refused_text number at) line.old) line.old) }
{
    library_lines::cabin_refused_line(number, at, line, whole)
}

#[unsafe(no_mangle)]
pub extern "C" fn cabin_replay_step(
    earth: f64,
    moon: f64,
    kind: u64,
    vehicle: u8,
    body: u8,
    time: i64,
    numbers: &[f64],
    states: &mut [f64],
    held: &mut [u64],
) -> u32
    ensures { Given (step_in (record { earth = earth; moon = moon }) kind vehicle body time numbers.now states.old held.old) states.old held.old states.new held.new result }
{
    library_replay::cabin_replay_step(
        earth, moon, kind, vehicle, body, time, numbers, states, held,
    )
}

#[unsafe(no_mangle)]
pub extern "C" fn cabin_ask(used: &[u8], line: &[u8], answer: &mut [u8], whole: &mut [u64]) -> u32
    ensures { (GivenWholes (ask_in used.now line.now answer.old whole.old) whole.old whole.new result) × (answer.new ≡ ask_after used.now line.now answer.old whole.old) }
{
    library_desk::cabin_ask(used, line, answer, whole)
}

#[unsafe(no_mangle)]
pub extern "C" fn cabin_look_up(used: &[u8], k: u64, out: &mut [f64], whole: &mut [u64]) -> u32
    ensures { Given (look_in used.now k out.old whole.old) out.old whole.old out.new whole.new result }
{
    library_settings::cabin_look_up(used, k, out, whole)
}

#[unsafe(no_mangle)]
pub extern "C" fn cabin_store(
    buf: &mut [u8],
    used: usize,
    body: u64,
    mu: f64,
    radius: f64,
    closed: f64,
    fair: f64,
    whole: &mut [u64],
) -> u32
    ensures { (GivenWholes (store_in buf.old used (record { body = body; mu = mu; radius = radius; closed = closed; fair = fair }) whole.old) whole.old whole.new result) × (buf.new ≡ store_after buf.old used (record { body = body; mu = mu; radius = radius; closed = closed; fair = fair }) whole.old) }
{
    library_settings::cabin_store(buf, used, body, mu, radius, closed, fair, whole)
}

#[unsafe(no_mangle)]
pub extern "C" fn cabin_go_back(buf: &mut [u8], used: usize, k: u64, whole: &mut [u64]) -> u32
    ensures { (GivenWholes (back_in buf.old used k whole.old) whole.old whole.new result) × (buf.new ≡ back_after buf.old used k whole.old) }
{
    library_settings::cabin_go_back(buf, used, k, whole)
}
