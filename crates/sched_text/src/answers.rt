ghost use Rattle.std.specs.Prelude.{◌≡◌, ◌++◌, ◌∷◌, [], codes, flat_map};
ghost use Rattle.std.specs.Fmt.{decimal, signed_decimal};
ghost use Rattle.sched_base.specs.Calls.{Writes};
ghost use Rattle.sched_model.specs.Answers.{verdict_in};
ghost use Rattle.textline.specs.Lines.{line, spaced};
ghost use Rattle.sched_text.specs.Answers.{slot_words, slot_line, label, order_line, segment_words, segments_line, schedule_lines, values_word, unfinished_words, verdict_words, nodes_line, end_line, shown_schedule, answer_text, summary_text, check_text};
ghost use Rattle.sched_text.specs.Pieces.{at_places, interval_name};
ghost use Rattle.sched_text.specs.code.Printing.{Prints};

use crate::page::{Page, finish, new_page, put_text};
use crate::pieces::{put_comma, put_count, put_interval, put_number};
use sched_base::{Desk, Failed, Itv, List, Port};
use sched_model::{
    Answer, Assignment, IntervalDef, Model, Segment, SequenceDef, Slot, Solved, StateDef, Verdict,
    criteria_count, unrank,
};

/// The values of the criteria for which a value of the objective's expression stands, with commas
/// between them.
pub fn put_values<D: Desk>(page: &mut Page, desk: &mut D, model: &Model, v: i64)
    ensures { Prints (values_word model.now v) page.old page.new (D.state desk.old) (D.state desk.new) }
{
    // Called for its clause alone.
    let _ = model.intervals();
    let mut is_first = true;
    for i in 0..criteria_count(model) {
        put_comma(page, desk, is_first);
        put_number(page, desk, unrank(model, v, i));
        is_first = false;
    }
}

/// A line of a word and a value.
fn put_valued<D: Desk>(page: &mut Page, desk: &mut D, model: &Model, word: &[u8], v: i64)
    ensures { Prints (line (word.now ∷ values_word model.now v ∷ [])) page.old page.new (D.state desk.old) (D.state desk.new) }
{
    put_text(page, desk, word);
    put_text(page, desk, b" ");
    put_values(page, desk, model, v);
    put_text(page, desk, b"\n");
}

/// A line of two moments.
fn put_moments<D: Desk>(page: &mut Page, desk: &mut D, s: i64, e: i64)
    ensures { Prints (line (signed_decimal s ∷ signed_decimal e ∷ [])) page.old page.new (D.state desk.old) (D.state desk.new) }
{
    put_number(page, desk, s);
    put_text(page, desk, b" ");
    put_number(page, desk, e);
    put_text(page, desk, b"\n");
}

fn put_slot<D: Desk>(page: &mut Page, desk: &mut D, d: &IntervalDef, slot: Slot)
    ensures { Prints (line (d.now.name ∷ slot_words slot)) page.old page.new (D.state desk.old) (D.state desk.new) }
{
    put_text(page, desk, d.name.as_slice());
    match slot {
        Slot::Absent => put_text(page, desk, b" absent\n"),
        Slot::Present { s, e } => {
            put_text(page, desk, b" ");
            put_moments(page, desk, s, e);
        }
    }
}

fn put_slots<D: Desk>(page: &mut Page, desk: &mut D, defs: &[IntervalDef], slots: &[Slot])
    ensures { Prints (at_places slot_line 0 defs.now slots.now) page.old page.new (D.state desk.old) (D.state desk.new) }
{
    let n = defs.len().min(slots.len());
    for i in 0..n {
        put_slot(page, desk, &defs[i], slots[i]);
    }
}

/// The name of a sequence, or its number where it has none.
fn put_label<D: Desk>(page: &mut Page, desk: &mut D, i: usize, d: &SequenceDef)
    ensures { Prints (label i d.now.name) page.old page.new (D.state desk.old) (D.state desk.new) }
{
    match &d.name {
        Some(name) => put_text(page, desk, name.as_slice()),
        None => {
            put_text(page, desk, b"#");
            put_count(page, desk, i as u64);
        }
    }
}

/// A space and the name of an interval.
fn put_member<D: Desk>(page: &mut Page, desk: &mut D, model: &Model, x: Itv)
    ensures { Prints (32 ∷ interval_name model.now x) page.old page.new (D.state desk.old) (D.state desk.new) }
{
    put_text(page, desk, b" ");
    put_interval(page, desk, model, x);
}

/// The rest of a line: the names of some intervals, each behind a space.
fn put_members<D: Desk>(page: &mut Page, desk: &mut D, model: &Model, order: &[Itv])
    ensures { Prints (flat_map (λ x. 32 ∷ interval_name model.now x) order.now) page.old page.new (D.state desk.old) (D.state desk.new) }
{
    for x in order {
        put_member(page, desk, model, *x);
    }
}

fn put_order<D: Desk>(
    page: &mut Page,
    desk: &mut D,
    model: &Model,
    i: usize,
    d: &SequenceDef,
    order: &[Itv],
)
    ensures { Prints (order_line model.now i d.now order.now) page.old page.new (D.state desk.old) (D.state desk.new) }
{
    put_text(page, desk, b"order ");
    put_label(page, desk, i, d);
    put_members(page, desk, model, order);
    put_text(page, desk, b"\n");
}

fn put_orders<D: Desk>(
    page: &mut Page,
    desk: &mut D,
    model: &Model,
    defs: &[SequenceDef],
    orders: &[List<Itv>],
)
    ensures { Prints (at_places (order_line model.now) 0 defs.now orders.now) page.old page.new (D.state desk.old) (D.state desk.new) }
{
    let n = defs.len().min(orders.len());
    for i in 0..n {
        put_order(page, desk, model, i, &defs[i], orders[i].as_slice());
    }
}

/// A space and a number.
fn put_spaced<D: Desk>(page: &mut Page, desk: &mut D, n: i64)
    ensures { Prints (32 ∷ signed_decimal n) page.old page.new (D.state desk.old) (D.state desk.new) }
{
    put_text(page, desk, b" ");
    put_number(page, desk, n);
}

fn put_segment<D: Desk>(page: &mut Page, desk: &mut D, s: Segment)
    ensures { Prints (spaced (segment_words s)) page.old page.new (D.state desk.old) (D.state desk.new) }
{
    put_spaced(page, desk, s.p);
    put_spaced(page, desk, s.q);
    put_spaced(page, desk, s.v);
}

/// The rest of a line: the numbers of some segments, each behind a space.
fn put_all_segments<D: Desk>(page: &mut Page, desk: &mut D, segments: &[Segment])
    ensures { Prints (flat_map (λ s. spaced (segment_words s)) segments.now) page.old page.new (D.state desk.old) (D.state desk.new) }
{
    for s in segments {
        put_segment(page, desk, *s);
    }
}

fn put_segments<D: Desk>(page: &mut Page, desk: &mut D, d: &StateDef, segments: &[Segment])
    ensures { Prints (segments_line 0 d.now segments.now) page.old page.new (D.state desk.old) (D.state desk.new) }
{
    put_text(page, desk, b"state ");
    put_text(page, desk, d.name.as_slice());
    put_all_segments(page, desk, segments);
    put_text(page, desk, b"\n");
}

fn put_states<D: Desk>(page: &mut Page, desk: &mut D, defs: &[StateDef], segs: &[List<Segment>])
    ensures { Prints (at_places segments_line 0 defs.now segs.now) page.old page.new (D.state desk.old) (D.state desk.new) }
{
    let n = defs.len().min(segs.len());
    for i in 0..n {
        put_segments(page, desk, &defs[i], segs[i].as_slice());
    }
}

/// The lines of a schedule: for each interval its name with its start and end
/// or `absent`; for each sequence `order`, its name or `#` and its number, and its members in order;
/// for each state function `state`, its name, and of each segment the first moment, the moment behind
/// it and the state.
fn put_schedule<D: Desk>(page: &mut Page, desk: &mut D, model: &Model, a: &Assignment)
    ensures { Prints (schedule_lines model.now a.now) page.old page.new (D.state desk.old) (D.state desk.new) }
{
    put_slots(page, desk, model.intervals(), a.slots.as_slice());
    put_orders(page, desk, model, model.sequences(), a.orders.as_slice());
    put_states(page, desk, model.states(), a.segs.as_slice());
}

fn put_found<D: Desk>(page: &mut Page, desk: &mut D, model: &Model, best: Option<i64>)
    ensures { Prints (line (unfinished_words model.now best)) page.old page.new (D.state desk.old) (D.state desk.new) }
{
    match best {
        None => put_text(page, desk, b"unfinished none\n"),
        Some(v) => put_valued(page, desk, model, b"unfinished", v),
    }
}

/// The line of a verdict.
fn put_verdict<D: Desk>(page: &mut Page, desk: &mut D, model: &Model, verdict: Verdict)
    ensures { Prints (line (verdict_words model.now verdict)) page.old page.new (D.state desk.old) (D.state desk.new) }
{
    match verdict {
        Verdict::Optimal(v) => put_valued(page, desk, model, b"optimal", v),
        Verdict::Feasible => put_text(page, desk, b"feasible\n"),
        Verdict::Infeasible => put_text(page, desk, b"infeasible\n"),
        Verdict::Unclosed { best } => put_found(page, desk, model, best),
    }
}

/// The line of a count of nodes.
fn put_nodes<D: Desk>(page: &mut Page, desk: &mut D, n: u64)
    ensures { Prints (nodes_line n) page.old page.new (D.state desk.old) (D.state desk.new) }
{
    put_text(page, desk, b"nodes ");
    put_count(page, desk, n);
    put_text(page, desk, b"\n");
}

/// The last line.
fn put_end<D: Desk>(page: &mut Page, desk: &mut D)
    ensures { Prints end_line page.old page.new (D.state desk.old) (D.state desk.new) }
{
    put_text(page, desk, b"end\n");
}

/// What an answer says without its schedules.
fn verdict_of(answer: &Answer) -> Verdict
    ensures { result ≡ verdict_in answer.now }
{
    match answer {
        Answer::Optimal(v, _) => Verdict::Optimal(*v),
        Answer::Feasible(_) => Verdict::Feasible,
        Answer::Infeasible => Verdict::Infeasible,
        Answer::Unfinished(None) => Verdict::Unclosed { best: None },
        Answer::Unfinished(Some((v, _))) => Verdict::Unclosed { best: Some(*v) },
    }
}

fn put_shown<D: Desk>(page: &mut Page, desk: &mut D, model: &Model, answer: &Answer)
    ensures { Prints (shown_schedule model.now answer.now) page.old page.new (D.state desk.old) (D.state desk.new) }
{
    match answer {
        Answer::Optimal(_, a) => put_schedule(page, desk, model, a),
        Answer::Feasible(a) => put_schedule(page, desk, model, a),
        Answer::Infeasible => {}
        Answer::Unfinished(found) => match found {
            None => {}
            Some((_, a)) => put_schedule(page, desk, model, a),
        },
    }
}

fn put_answer<D: Desk>(page: &mut Page, desk: &mut D, model: &Model, solved: &Solved)
    ensures { Prints (answer_text model.now solved.now) page.old page.new (D.state desk.old) (D.state desk.new) }
{
    put_verdict(page, desk, model, verdict_of(&solved.answer));
    put_nodes(page, desk, solved.nodes);
    put_shown(page, desk, model, &solved.answer);
    put_end(page, desk);
}

/// Writes the text of an answer to standard output, as one write does: a line with the verdict and
/// the values of the criteria, one with the count of nodes, the lines of the schedule where there is one, and `end`. It
/// takes no memory.
pub fn write_answer<D: Desk>(model: &Model, solved: &Solved, desk: &mut D) -> Result<(), Failed>
    ensures { Writes Port.Out (answer_text model.now solved.now) result (D.state desk.old) (D.state desk.new) }
{
    let mut page = new_page();
    put_answer(&mut page, desk, model, solved);
    finish(page, desk)
}

fn put_summary<D: Desk>(page: &mut Page, desk: &mut D, model: &Model, solved: &Solved)
    ensures { Prints (summary_text model.now solved.now) page.old page.new (D.state desk.old) (D.state desk.new) }
{
    put_verdict(page, desk, model, verdict_of(&solved.answer));
    put_nodes(page, desk, solved.nodes);
    put_end(page, desk);
}

/// Writes the text of an answer without the lines of its schedule to standard output, as one write
/// does. It takes no memory.
pub fn write_summary<D: Desk>(model: &Model, solved: &Solved, desk: &mut D) -> Result<(), Failed>
    ensures { Writes Port.Out (summary_text model.now solved.now) result (D.state desk.old) (D.state desk.new) }
{
    let mut page = new_page();
    put_summary(&mut page, desk, model, solved);
    finish(page, desk)
}

fn put_accepted<D: Desk>(page: &mut Page, desk: &mut D, model: &Model, verdict: Verdict, nodes: u64)
    ensures { Prints (check_text model.now verdict nodes) page.old page.new (D.state desk.old) (D.state desk.new) }
{
    put_text(page, desk, b"accepted ");
    put_verdict(page, desk, model, verdict);
    put_nodes(page, desk, nodes);
    put_end(page, desk);
}

/// Writes the text of a log's acceptance to standard output, as one write does: a line with `accepted`
/// and the verdict, one with the count of nodes, and `end`. It takes no memory.
pub fn write_accepted<D: Desk>(
    model: &Model,
    verdict: Verdict,
    nodes: u64,
    desk: &mut D,
) -> Result<(), Failed>
    ensures { Writes Port.Out (check_text model.now verdict nodes) result (D.state desk.old) (D.state desk.new) }
{
    let mut page = new_page();
    put_accepted(&mut page, desk, model, verdict, nodes);
    finish(page, desk)
}
