//! How a thread looks.
ghost use Rattle.std.specs.Prelude.{◌≡◌, ◌<◌, ◌≤◌, ◌⊎◌, List, [], Some, length, IfSome, IfNone};
ghost use Rattle.std.specs.Borrow.{Bor};
ghost use mathlib.Core.List.{IsPrefix};
ghost use Rattle.tm_publish.specs.Beginnings.{longer};
ghost use Rattle.tm_publish.specs.Fitting.{AllFit};

use crate::front::{Front, Named};
use crate::mind::Mind;
use crate::page::Page;
use core::mem::replace_with;
use crossbeam_utils::rule::Unruled;
use left_right::reader::Reader;
use std::sync::ledger::Share;
use tm_office::Office;

/// A place at a board, from which one thread looks at what is published. It has seen or been told
/// lists of steps, and has made some steps itself.
#[derive(Drop)]
pub struct Pass<L: Named, O: Office> {
    reader: Reader<Page<L, O>, (), Unruled>,
    pub(crate) mind: Mind<L, O>,
}

impl<L: Named, O: Office> Pass<L, O> {
    ghost use Rattle.tm_publish.specs.Words.{home, known, HasSeen, GoesOn, made_of, refused_of, front_home, front_list};

    /// A pass that knows this front alone.
    pub(crate) fn new(
        reader: Reader<Page<L, O>, (), Unruled>,
        front: &Front<L, O>,
        share: Share<L>,
        made: Vec<u64>,
    ) -> Pass<L, O>
        requires { (share.parts ≡ 1) × (share.amount ≡ 0) × (made.items ≡ []) }
        ensures { (result.mind.front.seen.log ≡ front.now.seen.log)
            × (result.mind.all.log ≡ front.now.seen.log)
            × (result.mind.made.items ≡ []) × (result.mind.refused ≡ 0) }
    {
        Pass {
            reader,
            mind: Mind::new(front, share, made),
        }
    }

    /// `look`, of a pass that is given back.
    fn visit<T, F: Fn(&O, u64) -> T>(self, f: F) -> (Pass<L, O>, Option<T>)
        requires callable { (x : Bor O) → GoesOn O.fits self (O.opening x.now) (O.steps x.now) →
            F.pre f x (length (O.steps x.now)) }
        ensures seen { IfSome result.1 (λ t. (x : Bor O)
            × GoesOn O.fits self (O.opening x.now) (O.steps x.now)
            × (known result.0 ≡ O.steps x.now)
            × F.post f x (length (O.steps x.now)) t) }
        ensures fitting { IfSome result.1 (λ _. (p : O.Opening) → home self ≡ Some p →
            AllFit O.fits p (known result.0)) }
        ensures refused { IfNone result.1
            ((refused_of self < refused_of result.0) ⊎ (refused_of result.0 ≡ u64.MAX)) }
        ensures kept { IfNone result.1 (known result.0 ≡ known self) }
        ensures unseen { IfNone result.1
            ((xs : List O.Step) → HasSeen result.0 xs → HasSeen self xs) }
        ensures knows { (xs : List O.Step) → HasSeen self xs → HasSeen result.0 xs }
        ensures opening { home result.0 ≡ home self }
        ensures made { made_of result.0 ≡ made_of self }
        ensures counts { refused_of self ≤ refused_of result.0 }
    {
        let Pass { reader, mut mind } = self;
        match reader.enter_as::<Unruled>() {
            Ok(reading) => {
                let page = reading.get();
                if page.front.version < mind.front.version {
                    mind.refuse();
                    let reader = reading.leave();
                    return (Pass { reader, mind }, None);
                }
                mind.told(&page.front);
                let office = page.inside();
                let version = page.front.version;
                let seen = f(office, version);
                let reader = reading.leave();
                (Pass { reader, mind }, Some(seen))
            }
            Err(reader) => {
                mind.refuse();
                (Pass { reader, mind }, None)
            }
        }
    }

    /// Some of `f` of one published office and its version. The office's list begins with all that
    /// the pass had seen or been told, and each of its steps fits. None where the entry was
    /// refused, which is counted. It waits for nobody.
    pub fn look<T, F: Fn(&O, u64) -> T>(&mut self, f: F) -> Option<T>
        requires callable { (x : Bor O) → GoesOn O.fits self.old (O.opening x.now) (O.steps x.now) →
            F.pre f x (length (O.steps x.now)) }
        ensures seen { IfSome result (λ t. (x : Bor O)
            × GoesOn O.fits self.old (O.opening x.now) (O.steps x.now)
            × (known self.new ≡ O.steps x.now)
            × F.post f x (length (O.steps x.now)) t) }
        ensures fitting { IfSome result (λ _. (p : O.Opening) → home self.old ≡ Some p →
            AllFit O.fits p (known self.new)) }
        ensures refused { IfNone result
            ((refused_of self.old < refused_of self.new) ⊎ (refused_of self.new ≡ u64.MAX)) }
        ensures kept { IfNone result (known self.new ≡ known self.old) }
        ensures unseen { IfNone result
            ((xs : List O.Step) → HasSeen self.new xs → HasSeen self.old xs) }
        ensures knows { (xs : List O.Step) → HasSeen self.old xs → HasSeen self.new xs }
        ensures opening { home self.new ≡ home self.old }
        ensures made { made_of self.new ≡ made_of self.old }
        ensures counts { refused_of self.old ≤ refused_of self.new }
    {
        replace_with(
            self,
            f,
            |pass: Pass<L, O>, f: F| -> (Pass<L, O>, Option<T>)
                requires callable { (x : Bor O)
                    → GoesOn O.fits pass (O.opening x.now) (O.steps x.now) →
                    F.pre f x (length (O.steps x.now)) }
                ensures seen { IfSome result.1 (λ t. (x : Bor O)
                    × GoesOn O.fits pass (O.opening x.now) (O.steps x.now)
                    × (known result.0 ≡ O.steps x.now)
                    × F.post f x (length (O.steps x.now)) t) }
                ensures fitting { IfSome result.1 (λ _. (p : O.Opening) → home pass ≡ Some p →
                    AllFit O.fits p (known result.0)) }
                ensures refused { IfNone result.1
                    ((refused_of pass < refused_of result.0) ⊎ (refused_of result.0 ≡ u64.MAX)) }
                ensures kept { IfNone result.1 (known result.0 ≡ known pass) }
                ensures unseen { IfNone result.1
                    ((xs : List O.Step) → HasSeen result.0 xs → HasSeen pass xs) }
                ensures knows { (xs : List O.Step) → HasSeen pass xs → HasSeen result.0 xs }
                ensures opening { home result.0 ≡ home pass }
                ensures made { made_of result.0 ≡ made_of pass }
                ensures counts { refused_of pass ≤ refused_of result.0 }
            { pass.visit(f) },
        )
    }

    /// A law: what the pass has seen or been told begins the longest list that it knows, which is
    /// among it. It does nothing.
    pub fn seen(&self)
        ensures begins { (xs : List O.Step) → HasSeen self.now xs → IsPrefix xs (known self.now) }
        ensures known { HasSeen self.now (known self.now) }
    {}

    /// How long the longest list is that it has seen or been told.
    pub fn version(&self) -> u64
        ensures { result ≡ length (known self.now) }
    {
        self.mind.front.version
    }

    /// How many of its entries were refused.
    pub fn refused(&self) -> u64
        ensures { result ≡ refused_of self.now }
    {
        self.mind.refused
    }

    /// Makes the front known. It looks at nothing.
    pub fn told(&mut self, front: &Front<L, O>)
        ensures longer { known self.new ≡ longer (known self.old) (front_list front.now) }
        ensures newer { length (known self.old) ≤ length (front_list front.now) →
            known self.new ≡ front_list front.now }
        ensures knows { (xs : List O.Step) → HasSeen self.old xs → HasSeen self.new xs }
        ensures front { HasSeen self.new (front_list front.now) }
        ensures met { length (known self.old) ≤ length (front_list front.now) → (xs : List O.Step) →
            HasSeen self.old xs → IsPrefix xs (front_list front.now) }
        ensures board { front_home front.now ≡ home self.old }
        ensures opening { home self.new ≡ home self.old }
        ensures made { made_of self.new ≡ made_of self.old }
        ensures refused { refused_of self.new ≡ refused_of self.old }
    {
        self.mind.told(front);
    }

    pub(crate) fn into_mind(self) -> Mind<L, O>
        ensures { result ≡ self.mind }
    {
        let Pass { reader: _, mind } = self;
        mind
    }
}
