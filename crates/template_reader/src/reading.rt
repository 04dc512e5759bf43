//! Bodies, read in one pass to their trees. The functions call one another as deep as blocks are
//! nested, which is 32 at most.
ghost use Rattle.std.specs.Prelude.{◌≡◌, ◌≢◌, ◌≤◌, ◌<◌, ◌+◌, ◌^◌, ◌||◌, length, false, true, Some, IfOk, IfErr, IfSome, IfNone, OnOk};
ghost use Rattle.template_reader.specs.Fault.{body_fault, is_root};
ghost use Rattle.template_reader.specs.Tree.{done, joined};
ghost use Rattle.template_reader.specs.Forest.{tree_of, tree_in, branch_of};
ghost use Rattle.template_reader.specs.Nest.{ParsesBody};
ghost use Rattle.template_reader.specs.Reading.{IsLast, IsWrong, Passes, Stops, Steps, Fails, FailsIn, Others, Blocks, opened, text_tree};

use crate::blocks::{block_of, is_inside, is_name, is_readable, print_of, push_node};
use crate::next::{Found, next_tag};
use crate::scan::tail;
use crate::tag::{Form, Name};
use crate::taken::taken;
use crate::{Node, Nodes, Span, TemplateError, TemplateKind, Walk};
use std::alloc::{AllocError, Global};

const MAX_DEPTH: usize = 32;

/// What is left of a body: from a place on, where the tag before takes so many bytes.
#[derive(Clone, Copy, Drop)]
pub struct Rest {
    pub from: usize,
    pub taken: usize,
}

/// How many blocks are begun, and whether an each is among them in its first part.
#[derive(Clone, Copy, Drop)]
pub struct Level {
    pub depth: usize,
    pub in_each: bool,
}

/// A block that is begun: its name, and the place of its tag.
#[derive(Clone, Copy, Drop)]
pub struct Begun {
    pub name: Name,
    pub place: usize,
}

/// What ends a part of nodes.
#[derive(Clone, Copy, Drop)]
pub enum Stop {
    End,
    Otherwise,
    Finish(Name),
}

// A tag that was read: what it says, where it is, and what is left after it.
#[derive(Drop)]
struct Passed {
    form: Form,
    place: usize,
    rest: Rest,
}

/// One tag was read.
#[derive(Drop)]
pub enum Step {
    Goes {
        rest: Rest,
    },
    Stops {
        stop: Stop,
        place: usize,
        rest: Rest,
    },
}

// Nodes, what ends them, where that is, and what is left.
#[derive(Drop)]
struct Part {
    nodes: Nodes,
    stop: Stop,
    place: usize,
    rest: Rest,
}

// The other part of a block, and what is left.
#[derive(Drop)]
struct Other {
    nodes: Nodes,
    rest: Rest,
}

// A block, and what is left.
#[derive(Drop)]
struct Block {
    node: Node,
    rest: Rest,
}

// Adds a text of the body where a byte of it is left.
fn push_text(nodes: &mut Vec<Node>, base: usize, start: usize, end: usize) -> Result<(), AllocError>
    requires { start < end → base + end < 2 ^ 64 }
    ensures { OnOk result (tree_of nodes.new.items ≡ joined (tree_of nodes.old.items) (text_tree base start end)) }
{
    if start < end {
        let span = Span {
            start: base + start,
            end: base + end,
        };
        push_node(nodes, Node::Text { span })
    } else {
        Ok(())
    }
}

fn fault_at(kind: TemplateKind, place: usize) -> TemplateError
    ensures { result ≡ record { kind = kind; place = place } }
{
    TemplateError { kind, place }
}

// Reads the next tag, and adds the text before it, or the last text where no tag is left.
fn pass_text(
    alloc: Global,
    body: &[u8],
    base: usize,
    rest: Rest,
    nodes: &mut Vec<Node>,
) -> Result<Option<Passed>, TemplateError>
    requires within { rest.from + rest.taken ≤ length body.now }
    requires fits { base + length body.now < 2 ^ 64 }
    ensures last { IfOk result (λ o. IfNone o (IsLast body.now rest.from)) }
    ensures last_text { IfOk result (λ o. IfNone o (tree_of nodes.new.items ≡ joined (tree_of nodes.old.items)
        (text_tree base (rest.from + rest.taken) (length body.now)))) }
    ensures passes { IfOk result (λ o. IfSome o (λ p. Passes base body.now rest.from rest.taken (tree_of nodes.old.items) (tree_of nodes.new.items) p.form
        p.place p.rest.from p.rest.taken)) }
    ensures wrong { IfErr result (λ e. e.kind ≢ TemplateKind.Memory → IsWrong body.now rest.from e) }
{
    let Some(found) = next_tag(alloc, body, rest.from)? else {
        push_text(nodes, base, rest.from + rest.taken, body.len())?;
        return Ok(None);
    };
    let Found { start, end, tag } = found;
    let (before, behind) = taken(&tag, body.split_at(start).0, tail(body, end));
    push_text(nodes, base, rest.from + rest.taken, start - before)?;
    Ok(Some(Passed {
        form: tag.form,
        place: start,
        rest: Rest {
            from: end,
            taken: behind,
        },
    }))
}

// Refuses a path that belongs to an each where there is none.
fn check_path(path: &Walk, level: Level, place: usize) -> Result<(), TemplateError>
    ensures ok { OnOk result ((is_root path.now || level.in_each) ≡ true) }
    ensures err { IfErr result (λ e. ((is_root path.now || level.in_each) ≡ false) × (e ≡ record { kind = TemplateKind.NotInEach; place = place })) }
{
    if is_readable(path, level.in_each) {
        Ok(())
    } else {
        Err(fault_at(TemplateKind::NotInEach, place))
    }
}

// Refuses a block within 32 others.
fn check_depth(level: Level, place: usize) -> Result<(), TemplateError>
    ensures ok { OnOk result (level.depth < 32) }
    ensures err { IfErr result (λ e. (32 ≤ level.depth) × (e ≡ record { kind = TemplateKind.TooDeep; place = place })) }
{
    if level.depth < MAX_DEPTH {
        Ok(())
    } else {
        Err(fault_at(TemplateKind::TooDeep, place))
    }
}

// Reads the next tag and the text before it, and the whole block where the tag begins one.
#[cycle(reading)]
fn read_one(
    alloc: Global,
    body: &[u8],
    base: usize,
    rest: Rest,
    level: Level,
    nodes: &mut Vec<Node>,
) -> Result<Step, TemplateError>
    requires within { rest.from + rest.taken ≤ length body.now }
    requires fits { base + length body.now < 2 ^ 64 }
    requires shallow { level.depth ≤ 32 }
    ensures ok { IfOk result (λ s. Steps base body.now rest.from rest.taken level.depth level.in_each (tree_of nodes.old.items) (tree_of nodes.new.items) s) }
    ensures err { IfErr result (λ e. e.kind ≢ TemplateKind.Memory → Fails body.now rest.from level.depth level.in_each e) }
{
    let Some(passed) = pass_text(alloc, body, base, rest, nodes)? else {
        return Ok(Step::Stops {
            stop: Stop::End,
            place: body.len(),
            rest: Rest {
                from: body.len(),
                taken: 0,
            },
        });
    };
    let Passed { form, place, rest } = passed;
    match form {
        Form::Comment => Ok(Step::Goes { rest }),
        Form::Print { expr } => {
            check_path(expr.path(), level, place)?;
            push_node(nodes, print_of(expr))?;
            Ok(Step::Goes { rest })
        }
        Form::Begin { name, path } => {
            check_path(&path, level, place)?;
            check_depth(level, place)?;
            let begun = Begun { name, place };
            let block = read_block(alloc, body, base, rest, level, begun, path)?;
            push_node(nodes, block.node)?;
            Ok(Step::Goes { rest: block.rest })
        }
        Form::Otherwise => Ok(Step::Stops {
            stop: Stop::Otherwise,
            place,
            rest,
        }),
        Form::Finish { name } => Ok(Step::Stops {
            stop: Stop::Finish(name),
            place,
            rest,
        }),
    }
}

// Reads nodes up to an else, an end or the end of the body.
#[cycle(reading)]
fn read_part(
    alloc: Global,
    body: &[u8],
    base: usize,
    rest: Rest,
    level: Level,
) -> Result<Part, TemplateError>
    requires within { rest.from + rest.taken ≤ length body.now }
    requires fits { base + length body.now < 2 ^ 64 }
    requires shallow { level.depth ≤ 32 }
    ensures ok { IfOk result (λ p. Stops base body.now rest.from rest.taken level.depth level.in_each done (tree_in p.nodes) p.stop p.place p.rest.from
        p.rest.taken) }
    ensures err { IfErr result (λ e. e.kind ≢ TemplateKind.Memory → Fails body.now rest.from level.depth level.in_each e) }
{
    let mut nodes = Vec::new(alloc);
    let mut left = rest;
    loop {
        match read_one(alloc, body, base, left, level, &mut nodes)? {
            Step::Goes { rest } => left = rest,
            Step::Stops { stop, place, rest } => {
                return Ok(Part {
                    nodes: Nodes::of(nodes),
                    stop,
                    place,
                    rest,
                });
            }
        }
    }
}

// Reads a block after its begin, up to its end.
#[cycle(reading)]
fn read_block(
    alloc: Global,
    body: &[u8],
    base: usize,
    rest: Rest,
    level: Level,
    begun: Begun,
    path: Walk,
) -> Result<Block, TemplateError>
    requires within { rest.from + rest.taken ≤ length body.now }
    requires fits { base + length body.now < 2 ^ 64 }
    requires shallow { level.depth < 32 }
    ensures ok { IfOk result (λ b. Blocks base body.now rest.from rest.taken level.depth level.in_each begun.name path begun.place (branch_of b.node)
        b.rest.from b.rest.taken) }
    ensures err { IfErr result (λ e. e.kind ≢ TemplateKind.Memory → FailsIn body.now rest.from level.depth level.in_each (opened begun.name false begun.place)
        e) }
{
    let inner = Level {
        depth: level.depth + 1,
        in_each: is_inside(begun.name, level.in_each),
    };
    let first = read_part(alloc, body, base, rest, inner)?;
    match first.stop {
        Stop::End => Err(fault_at(TemplateKind::NeverClosed, begun.place)),
        Stop::Otherwise => {
            let other = read_other(alloc, body, base, first.rest, level, begun)?;
            Ok(Block {
                node: block_of(begun.name, path, first.nodes, other.nodes),
                rest: other.rest,
            })
        }
        Stop::Finish(last) => {
            if !is_name(last, begun.name) {
                return Err(fault_at(TemplateKind::NotBegun, first.place));
            }
            let other = Nodes::of(Vec::new(alloc));
            Ok(Block {
                node: block_of(begun.name, path, first.nodes, other),
                rest: first.rest,
            })
        }
    }
}

// Reads the other part of a block, up to the block's end.
#[cycle(reading)]
fn read_other(
    alloc: Global,
    body: &[u8],
    base: usize,
    rest: Rest,
    level: Level,
    begun: Begun,
) -> Result<Other, TemplateError>
    requires within { rest.from + rest.taken ≤ length body.now }
    requires fits { base + length body.now < 2 ^ 64 }
    requires shallow { level.depth < 32 }
    ensures ok { IfOk result (λ o. Others base body.now rest.from rest.taken level.depth level.in_each begun.name begun.place (tree_in o.nodes) o.rest.from
        o.rest.taken) }
    ensures err { IfErr result (λ e. e.kind ≢ TemplateKind.Memory
        → FailsIn body.now rest.from level.depth level.in_each (opened begun.name true begun.place) e) }
{
    let inner = Level {
        depth: level.depth + 1,
        in_each: level.in_each,
    };
    let other = read_part(alloc, body, base, rest, inner)?;
    match other.stop {
        Stop::End => Err(fault_at(TemplateKind::NeverClosed, begun.place)),
        Stop::Otherwise => Err(fault_at(TemplateKind::TwoElse, other.place)),
        Stop::Finish(last) => {
            if !is_name(last, begun.name) {
                return Err(fault_at(TemplateKind::NotBegun, other.place));
            }
            Ok(Other {
                nodes: other.nodes,
                rest: other.rest,
            })
        }
    }
}

/// The nodes of a body, with their places in a source in which `base` bytes are before it. The
/// places of faults count in the body.
pub fn read_body(alloc: Global, body: &[u8], base: usize) -> Result<Nodes, TemplateError>
    requires { base + length body.now < 2 ^ 64 }
    ensures ok { IfOk result (λ nodes. ParsesBody base body.now (tree_in nodes)) }
    ensures err { IfErr result (λ e. e.kind ≢ TemplateKind.Memory → body_fault body.now ≡ Some e) }
{
    let whole = Rest { from: 0, taken: 0 };
    let outer = Level {
        depth: 0,
        in_each: false,
    };
    let part = read_part(alloc, body, base, whole, outer)?;
    match part.stop {
        Stop::End => Ok(part.nodes),
        Stop::Otherwise => Err(fault_at(TemplateKind::NotBegun, part.place)),
        Stop::Finish(_) => Err(fault_at(TemplateKind::NotBegun, part.place)),
    }
}
