ghost use Rattle.std.specs.Prelude.{◌≡◌, ◌++◌, ◌<◌, Some, IfOk, OnOk, All, string_bytes, length};
ghost use Rattle.taps_candidate.specs.PlanText as texts;

use crate::{Leaf, Plan};
use std::alloc::{AllocError, Global};
use std::fmt;
use taps_base::{Body, Gap, NoMemory};
use taps_preconnection::Preconnection;
use taps_stack::Stack;

/// The number of leaves, and a line for each.
pub fn plan_text(alloc: Global, pre: &Preconnection, plan: &Plan) -> Result<Body, NoMemory>
    requires even { length plan.now.leaves.items ≡ length plan.now.gaps.items }
    requires placed { All (λ leaf. leaf.path < length pre.now.paths.items) plan.now.leaves.items }
    ensures { IfOk result (λ text.
        text ≡ texts.plan_text (texts.interface_of pre.now) plan.now.leaves.items plan.now.gaps.items) }
{
    let text = plan_string(alloc, pre, plan)?;
    Ok(Body::from_text(text))
}

/// The same as a string, to which more can be appended.
#[tactic(auto, unfolding(crate::specs::PlanText::plan_text))]
pub fn plan_string(alloc: Global, pre: &Preconnection, plan: &Plan) -> Result<String, NoMemory>
    requires even { length plan.now.leaves.items ≡ length plan.now.gaps.items }
    requires placed { All (λ leaf. leaf.path < length pre.now.paths.items) plan.now.leaves.items }
    ensures { IfOk result (λ text.
        string_bytes text ≡ texts.plan_text (texts.interface_of pre.now) plan.now.leaves.items plan.now.gaps.items) }
{
    let count = plan.leaves.len();
    let mut text = format!(in alloc; "leaves {count}\n")?;
    append_leaves(&mut text, pre, plan.leaves.as_slice(), plan.gaps.as_slice())?;
    Ok(text)
}

fn append_leaves(
    text: &mut String,
    pre: &Preconnection,
    leaves: &[Leaf],
    gaps: &[Gap],
) -> Result<(), AllocError>
    requires even { length leaves.now ≡ length gaps.now }
    requires placed { All (λ leaf. leaf.path < length pre.now.paths.items) leaves.now }
    ensures { OnOk result (string_bytes text.new ≡ string_bytes text.old
        ++ texts.leaf_lines (texts.interface_of pre.now) 0 leaves.now gaps.now) }
{
    for (number, leaf) in leaves.iter().enumerate() {
        append_leaf(text, pre, number, leaf, &gaps[number])?;
    }
    Ok(())
}

#[tactic(auto, unfolding(crate::specs::PlanText::leaf_line))]
fn append_leaf(
    text: &mut String,
    pre: &Preconnection,
    number: usize,
    leaf: &Leaf,
    gap: &Gap,
) -> Result<(), AllocError>
    requires { leaf.now.path < length pre.now.paths.items }
    ensures { OnOk result (string_bytes text.new ≡ string_bytes text.old
        ++ texts.leaf_line (texts.interface_of pre.now) number leaf.now gap.now) }
{
    let interface = &pre.path(leaf.path as usize).interface;
    let stack = StackWord(leaf.target.stack);
    let address = leaf.target.address;
    let gap = GapWord(*gap);
    write!(text, "{number} {interface} {stack} {address} +{gap}\n")
}

#[derive(Clone, Copy)]
struct StackWord(Stack);

impl fmt::Display for StackWord {
    ghost output = { λ word. Some (texts.stack_word word.0) };

    fn fmt<W: fmt::Write>(&self, f: &mut fmt::Formatter<W>) -> fmt::Result {
        match self.0 {
            Stack::Tcp => write!(f, "tcp"),
            Stack::Unix => write!(f, "unix"),
            Stack::Udp => write!(f, "udp"),
        }
    }
}

#[derive(Clone, Copy)]
struct GapWord(Gap);

impl fmt::Display for GapWord {
    ghost output = { λ word. Some (texts.gap_text word.0) };

    fn fmt<W: fmt::Write>(&self, f: &mut fmt::Formatter<W>) -> fmt::Result {
        match self.0 {
            Gap::After(delay) => write!(f, "{delay}"),
            Gap::Never => write!(f, "none"),
        }
    }
}
