//! The whole picture.
use crate::call_lanes::CallLanes;
use crate::frame::{draw_bands, draw_order, draw_steps};
use crate::legend::{STYLE, draw_legend};
use crate::loss::Loss;
use crate::messages::{draw_losses, draw_replies};
use crate::object_view::ObjectView;
use crate::omitted::draw_omitted;
use crate::phases::draw_phases;
use crate::plan::{MARGIN, Plan};
use crate::px::Px;
use crate::retired::draw_retired;
use crate::server_lanes::draw_servers;
use crate::text::Escaped;
use std::alloc::AllocError;
use std::fmt;

/// The baseline of the heading.
const HEADING_BASE: u64 = 180;

/// The height of the page below the baseline of the legend's first line.
const LEGEND_HEIGHT: u64 = 460;

/// How far below the baseline of the legend's first line it says what is left out.
const OMITTED_GAP: u64 = 360;

/// A picture of an object. It prints as SVG. A run of 40 calls fits a screen. In the picture of a long run narrow
/// phases have no words, and a line at the foot says what else is left out.
pub struct Picture<'a, O> {
    /// The object's name.
    pub name: &'a str,
    /// Where lanes and steps are drawn.
    pub plan: &'a Plan,
    /// The object.
    pub object: &'a O,
    /// The numbers of the calls, in an order in which they follow one register.
    pub order: &'a [u64],
    /// The messages of the object that were lost.
    pub losses: &'a [Loss],
}

/// Returns the same picture. It allocates no memory and is never refused.
impl<O> Clone for Picture<'_, O> {
    ghost use Rattle.std.specs.Prelude.{◌≡◌, ⊤};

    ghost is_clone = { λ picture copy. copy ≡ picture };

    ghost is_infallible = { λ _. ⊤ };

    fn clone(&self) -> Result<Self, AllocError> {
        Ok(*self)
    }
}

impl<O> Copy for Picture<'_, O> {}

impl<O: ObjectView> fmt::Display for Picture<'_, O> {
    fn fmt<W: fmt::Write>(&self, f: &mut fmt::Formatter<W>) -> fmt::Result {
        let (plan, object) = (self.plan, self.object);
        draw_head(f, self.name, plan, self.order.len())?;
        draw_bands(f, plan)?;
        draw_retired(f, plan)?;
        draw_steps(f, plan)?;
        draw_replies(f, plan, object)?;
        draw_losses(f, plan, object, self.losses)?;
        write!(f, "{}", CallLanes(plan))?;
        draw_phases(f, plan, object)?;
        draw_servers(f, plan, object)?;
        draw_foot(f, plan, object, self.order)?;
        writeln!(f, "</svg>")
    }
}

// The size of the page, its styles, and the heading.
fn draw_head<W: fmt::Write>(
    f: &mut fmt::Formatter<W>,
    name: &str,
    plan: &Plan,
    ordered: usize,
) -> fmt::Result {
    let (width, height) = (plan.page(), plan.legend_y(ordered).plus(LEGEND_HEIGHT));
    writeln!(
        f,
        "<svg xmlns='http://www.w3.org/2000/svg' width='{width}' height='{height}' \
        viewBox='0 0 {width} {height}'>\n<title>object {}</title>{STYLE}\n\
        <rect width='{width}' height='{height}' style='fill:#fff;stroke:none'/>",
        Escaped(name)
    )?;
    draw_heading(f, name, plan)
}

// The heading: the object's name, how many calls it has, and its steps.
fn draw_heading<W: fmt::Write>(f: &mut fmt::Formatter<W>, name: &str, plan: &Plan) -> fmt::Result {
    let calls = plan.lanes.len();
    let word = if calls == 1 { "call" } else { "calls" };
    writeln!(
        f,
        "<text class='head' x='{}' y='{}'>object {}: {calls} {word}, steps {} to {}</text>",
        Px(MARGIN),
        Px(HEADING_BASE),
        Escaped(name),
        plan.first,
        plan.last
    )
}

// The order of the calls, the legend, and what is left out.
fn draw_foot<W: fmt::Write, O: ObjectView>(
    f: &mut fmt::Formatter<W>,
    plan: &Plan,
    object: &O,
    order: &[u64],
) -> fmt::Result {
    let y = plan.legend_y(order.len());
    draw_order(f, plan, order)?;
    draw_legend(f, plan, y)?;
    draw_omitted(f, plan, object, order.len(), y.plus(OMITTED_GAP))
}
