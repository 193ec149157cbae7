//! Who is told, and what.
ghost use Rattle.std.specs.Prelude.{◌≡◌, ◌+◌, ◌≤◌, [], length, map, not, vec_len, vec_capacity};
ghost use Rattle.std.specs.List.{filter};
ghost use Rattle.sk_cut.specs.Receipts.{is_reached, covers, receipt_at, AnswersReceipts};

use sk_model::{Label, Need, Point, Receipt};

fn is_reached(number: Option<u32>, upto: u32) -> bool
    ensures { result ≡ is_reached number upto }
{
    match number {
        None => true,
        Some(n) => n <= upto,
    }
}

/// Whether the cut covers the need.
pub fn covers(cut: Point, need: &Need) -> bool
    ensures { result ≡ covers cut need.now }
{
    is_reached(need.mem, cut.a) && is_reached(need.store, cut.b)
}

/// Who answers the receipt of the label and the cut that it is called with. That it does is a fact that a `Pipeline` keeps beside it.
pub trait Teller {
    /// It does answer that.
    ghost is_true: { Self → Type 0 };

    /// The receipt of this label and this cut.
    fn receipt(&self, label: Label, cut: Point) -> Receipt
        requires { is_true self.now }
        ensures { result ≡ record { label = label; cut = cut } };
}

/// A closure does, where it answers the receipt of what it is called with.
impl<F: Fn(Label, Point) -> Receipt> Teller for F {
    ghost is_true = { λ tell. F.IsAlwaysCallable tell × AnswersReceipts (F.post tell) };

    fn receipt(&self, label: Label, cut: Point) -> Receipt {
        self(label, cut)
    }
}

/// The receipts of the waiters that the cut covers, in their order. The room for them is there.
pub fn tell_all<F: Teller>(tell: &F, cut: Point, waiting: &[Need], out: &mut Vec<Receipt>)
    requires tells { F.is_true tell.now }
    requires empty { out.old.items ≡ [] }
    requires room { length waiting.now ≤ vec_capacity out.old }
    ensures { out.new.items ≡ map (receipt_at cut) (filter (covers cut) waiting.now) }
{
    for need in waiting {
        if covers(cut, need) {
            match out.push(tell.receipt(need.label, cut)) {
                Ok(()) => {}
                Err(_) => unreachable!(),
            }
        }
    }
}

/// Drops the waiters that the cut covers.
pub fn drop_covered(cut: Point, waiting: &mut Vec<Need>)
    ensures items { waiting.new.items ≡ filter (λ n. not (covers cut n)) waiting.old.items }
    ensures len { vec_len waiting.new ≤ vec_len waiting.old }
    ensures capacity { vec_capacity waiting.new ≡ vec_capacity waiting.old }
{
    waiting.retain(|need| !covers(cut, need));
}
