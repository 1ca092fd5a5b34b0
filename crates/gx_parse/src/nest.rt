//! The conditions that are read so far within one another.

ghost use Rattle.std.specs.Prelude.{◌≡◌, true, ◌+◌, ◌<◌, [], ◌∷◌, length, None, Some, IfOk, option_map};
ghost use Rattle.gx_parse.specs.Trees.{tree_of, And, Or, Not};
ghost use Rattle.gx_parse.specs.Nests as nests;

use crate::statement::Condition;
use gx_bytes::NoMemory;
use std::alloc::Global;

/// Conditions joined so far: what stands before the last OR, and what was joined by AND behind it.
#[derive(Debug, Drop)]
pub struct Group {
    pub sum: Option<Condition>,
    pub product: Option<Condition>,
}

/// What stands before an open parenthesis or NOT.
#[derive(Debug, Drop)]
pub struct Frame {
    pub group: Group,
    /// Whether NOT is open, and no parenthesis.
    pub negated: bool,
}

/// The open parentheses and NOTs.
#[derive(Debug, Drop)]
pub struct Frames {
    frames: Vec<Frame>,
}

impl Frames {
    pub fn new(alloc: Global) -> Frames
        ensures { nests.frames_of result ≡ [] }
    {
        Frames {
            frames: Vec::new(alloc),
        }
    }

    pub fn len(&self) -> usize
        ensures { result ≡ length (nests.frames_of self.now) }
    {
        self.frames.len()
    }

    /// One more.
    pub fn with(self, frame: Frame) -> Result<Frames, NoMemory>
        ensures { IfOk result (λ longer. nests.frames_of longer ≡ nests.frame_of frame ∷ nests.frames_of self) }
    {
        let mut frames = self.frames;
        frames.push(frame)?;
        Ok(Frames { frames })
    }

    /// The innermost one, and the others.
    pub fn split(self) -> (Option<Frame>, Frames)
        ensures { nests.SplitOff (nests.frames_of self) (option_map nests.frame_of result.0) (nests.frames_of result.1) }
    {
        let mut frames = self.frames;
        let last = frames.pop();
        (last, Frames { frames })
    }

    /// Whether the innermost one is a NOT.
    pub fn is_negated(&self) -> bool
        ensures { result ≡ nests.is_negated (nests.frames_of self.now) }
    {
        match self.frames.last() {
            Some(frame) => frame.negated,
            None => false,
        }
    }
}

pub fn and(alloc: Global, left: Condition, right: Condition) -> Result<Condition, NoMemory>
    ensures { IfOk result (λ c. tree_of c ≡ And (tree_of left) (tree_of right)) }
{
    Ok(Condition::And(Box::new(alloc, left)?, Box::new(alloc, right)?))
}

pub fn or(alloc: Global, left: Condition, right: Condition) -> Result<Condition, NoMemory>
    ensures { IfOk result (λ c. tree_of c ≡ Or (tree_of left) (tree_of right)) }
{
    Ok(Condition::Or(Box::new(alloc, left)?, Box::new(alloc, right)?))
}

pub fn not(alloc: Global, inner: Condition) -> Result<Condition, NoMemory>
    ensures { IfOk result (λ c. tree_of c ≡ Not (tree_of inner)) }
{
    Ok(Condition::Not(Box::new(alloc, inner)?))
}

impl Group {
    pub fn new() -> Group
        ensures { nests.group_of result ≡ nests.no_group }
    {
        Group {
            sum: None,
            product: None,
        }
    }

    /// One more operand behind AND, OR or nothing.
    pub fn with_operand(self, alloc: Global, operand: Condition) -> Result<Group, NoMemory>
        ensures { IfOk result (λ longer. nests.group_of longer ≡ nests.with_operand (nests.group_of self) (tree_of operand)) }
    {
        let Group { sum, product } = self;
        let product = match product {
            Some(product) => and(alloc, product, operand)?,
            None => operand,
        };
        Ok(Group {
            sum,
            product: Some(product),
        })
    }

    /// All of them as one condition, if an operand stands last.
    pub fn total(self, alloc: Global) -> Result<Option<Condition>, NoMemory>
        ensures { IfOk result (λ total. option_map tree_of total ≡ nests.total (nests.group_of self)) }
    {
        let Group { sum, product } = self;
        match (sum, product) {
            (Some(sum), Some(product)) => Ok(Some(or(alloc, sum, product)?)),
            (None, Some(product)) => Ok(Some(product)),
            _ => Ok(None),
        }
    }

    /// Behind OR.
    pub fn or(self, alloc: Global) -> Result<Group, NoMemory>
        ensures { IfOk result (λ group. nests.group_of group ≡ nests.behind_or (nests.group_of self)) }
    {
        let sum = self.total(alloc)?;
        Ok(Group { sum, product: None })
    }
}

/// The open parentheses and NOTs with what stands before them, what is joined behind them, and how many ANDs
/// and ORs there are.
#[derive(Debug, Drop)]
pub struct Nest {
    pub frames: Frames,
    pub group: Group,
    pub joins: usize,
}

impl Nest {
    pub fn new(alloc: Global) -> Nest
        ensures { nests.nest_of result ≡ nests.no_nest }
    {
        Nest {
            frames: Frames::new(alloc),
            group: Group::new(),
            joins: 0,
        }
    }

    /// Behind `(` or NOT.
    pub fn opened(self, negated: bool) -> Result<Nest, NoMemory>
        ensures { IfOk result (λ nest. nests.nest_of nest ≡ nests.opened (nests.nest_of self) negated) }
    {
        let Nest {
            frames,
            group,
            joins,
        } = self;
        let frame = Frame { group, negated };
        Ok(Nest {
            frames: frames.with(frame)?,
            group: Group::new(),
            joins,
        })
    }

    /// Behind an operand, which ends each NOT before it.
    pub fn with_operand(self, alloc: Global, operand: Condition) -> Result<Nest, NoMemory>
        ensures { IfOk result (λ nest. nests.nest_of nest ≡ nests.settled (nests.frames_of self.frames) (nests.group_of self.group) self.joins (tree_of operand)) }
    {
        let Nest {
            frames,
            group,
            joins,
        } = self;
        let (frames, group, operand) = negated(alloc, frames, group, operand)?;
        Ok(Nest {
            frames,
            group: group.with_operand(alloc, operand)?,
            joins,
        })
    }

    /// Behind `)`, where a parenthesis is open.
    pub fn closed(self, alloc: Global) -> Result<Option<Nest>, NoMemory>
        ensures { IfOk result (λ nest. option_map nests.nest_of nest ≡ nests.closed (nests.nest_of self)) }
    {
        let Nest {
            frames,
            group,
            joins,
        } = self;
        let (frame, frames) = frames.split();
        let Some(frame) = frame else {
            return Ok(None);
        };
        let Some(operand) = group.total(alloc)? else {
            return Ok(None);
        };
        let outer = Nest {
            frames,
            group: frame.group,
            joins,
        };
        Ok(Some(outer.with_operand(alloc, operand)?))
    }

    /// Behind AND.
    pub fn and(self) -> Nest
        requires { self.joins < usize.MAX }
        ensures { nests.nest_of result ≡ nests.and_behind (nests.nest_of self) }
    {
        let Nest {
            frames,
            group,
            joins,
        } = self;
        Nest {
            frames,
            group,
            joins: joins + 1,
        }
    }

    /// Behind OR.
    pub fn or(self, alloc: Global) -> Result<Nest, NoMemory>
        requires { self.joins < usize.MAX }
        ensures { IfOk result (λ nest. nests.nest_of nest ≡ nests.or_behind (nests.nest_of self)) }
    {
        let Nest {
            frames,
            group,
            joins,
        } = self;
        Ok(Nest {
            frames,
            group: group.or(alloc)?,
            joins: joins + 1,
        })
    }

    /// The whole condition, if it may end here.
    pub fn finish(self, alloc: Global) -> Result<Option<Condition>, NoMemory>
        ensures { IfOk result (λ whole. option_map tree_of whole ≡ nests.whole (nests.nest_of self)) }
    {
        let Nest { frames, group, .. } = self;
        if frames.len() == 0 {
            group.total(alloc)
        } else {
            Ok(None)
        }
    }
}

/// The operand with each NOT that stands open right before it.
fn negated(
    alloc: Global,
    frames: Frames,
    group: Group,
    operand: Condition,
) -> Result<(Frames, Group, Condition), NoMemory>
    ensures { IfOk result (λ x. nests.Settles (nests.frames_of frames) (nests.group_of group) (tree_of operand) (nests.frames_of x.0) (nests.group_of x.1) (tree_of x.2)) }
{
    let mut frames = frames;
    let mut group = group;
    let mut operand = operand;
    'nots: while frames.is_negated() {
        (frames, group, operand) = negated_once(alloc, frames, group, operand)?;
    }
    Ok((frames, group, operand))
}

fn negated_once(
    alloc: Global,
    frames: Frames,
    group: Group,
    operand: Condition,
) -> Result<(Frames, Group, Condition), NoMemory>
    requires { nests.is_negated (nests.frames_of frames) ≡ true }
    ensures same { IfOk result (λ x. nests.SettleAlike (nests.frames_of frames) (nests.group_of group) (tree_of operand) (nests.frames_of x.0) (nests.group_of x.1) (tree_of x.2)) }
    ensures fewer { IfOk result (λ x. length (nests.frames_of x.0) < length (nests.frames_of frames)) }
{
    let (frame, others) = frames.split();
    match frame {
        Some(Frame { group, .. }) => Ok((others, group, not(alloc, operand)?)),
        None => Ok((others, group, operand)),
    }
}
