//! What people ask of a script, a certificate or a card, in words: why it is refused, and what is known of it.
//!
//! - `explain`, `refusal_of`: why a script is refused, and what is known at each of its points. The refusal is that of
//!   the survey, with the point and the shape that are refused, the way there, and every point that fails and no other
//!   (`specs/Explained.antt`, `specs/Failing.antt`). The reason of an illegal event is the first rule that is not
//!   kept, in the order of `specs/Reason.antt`.
//! - `find_way` returns a way to a shape of a point with the fewest visits, and none exactly where there is none
//!   (`specs/Way.antt`). Its edges are those that a closed certificate has to keep, all of them
//!   (`laws::edges_are_asked`, `edges_are_all`). Without number tests the shape to which it leads stands at its point
//!   in every certificate that `check` accepts (`laws::ways_stand`).
//! - `draw`: the graph of a script in the language of Graphviz, exactly: a line for each point and one for each edge
//!   that leads to a point, with the case in which it is taken, and what is refused in red. Without faults, exactly
//!   the points that end in a fault and the edges to them are left out (`specs/Drawing.antt`).
//! - `fault_page`: where a text is no script, and what can stand there (`specs/Page.antt`). That is asked of the
//!   parser: it is given the text before the place with each word behind it, so there is no second grammar.
//! - `faults_of`: every fault of a text at once, the parser's first.
//! - `judge`: `accepted` with the bound only where the checker accepts the pair, and otherwise why it does not
//!   (`specs/Judged.antt`).
//! - `describe_given`: what a description says of a card, or the first line that is wrong (`specs/Described.antt`).
//!
//! Proved is which refusal, point, line, way and verdict is told; the words themselves are shown by texts that the
//! tests of the program compare. What is shown of an input has no control character left, and none that changes the
//! direction of a text (`specs/Lines.antt`).
#![tactic(auto)]

mod describing;
mod drawing;
mod edges;
mod explaining;
mod failing;
mod found;
mod hints;
mod judging;
mod known;
pub mod laws;
mod reason;
mod refusal;
mod refused;
mod way;

pub use describing::{CardPage, describe_given};
pub use drawing::draw;
pub use explaining::{Explanation, explain};
pub use failing::{Failure, failures_of};
pub use hints::{TextFault, TextFaults, fault_page, faults_of, text_line};
pub use judging::{CertificateRefusal, Verdict, judge};
pub use reason::reason_of;
pub use refusal::{Refusal, refusal_of};
pub use sdv_telling::Visit;
pub use way::find_way;
