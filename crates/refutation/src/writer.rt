//! Reasons as text: each is made into a form, whose text is a line.
#![tactic(auto, unfolding(edn_reader::specs::Bytes::is_name))]

ghost use Rattle.std.specs.Prelude.{◌≡◌, ◌≤◌, ◌∷◌, ◌++◌, [], true, IfOk, OnOk};
ghost use Rattle.std.specs.List.{AllByRecursion};
ghost use Rattle.edn_reader.specs.Bytes.{is_name};
ghost use Rattle.edn_reader.specs.View.{view};
ghost use Rattle.refutation.specs.Denotes.{max_number};
ghost use Rattle.refutation.specs.Lines as spec;
ghost use Rattle.refutation.specs.Lines.{AreReasonsInRange, SpellsReasons};
ghost use Rattle.refutation.specs.Written.{pairs_in, AreIntegerKeys, AreNumberKeys};
ghost use Rattle.refutation.specs.Written.{AreTypedValues, IsTypedCut, AreTypedSteps};
ghost use Rattle.refutation.specs.Written.{IsTypedBasis, IsTypedReason, IsWritten};

use crate::{Basis, Reason, Trial};
use cuts::{Count, Counted, Cut, Values};
use edn::{Form, Name, Out, write_form};
use order_search::TryFirst;
use std::alloc::{AllocError, Global};
use std::collections::BTreeSet;

/// The number of a map or of an object, or a number of steps.
fn number(n: u32) -> Form
    ensures form { view result ≡ spec.number_datum n }
    ensures in_range { n ≤ max_number }
{
    Form::Int(i64::from(n))
}

/// The pairs of a map that is being made.
#[derive(Drop)]
struct MapBuilder {
    alloc: Global,
    pairs: Vec<(Name, Form)>,
}

impl MapBuilder {
    fn new(alloc: Global) -> MapBuilder
        ensures { pairs_in result ≡ [] }
    {
        MapBuilder {
            alloc,
            pairs: Vec::new(alloc),
        }
    }

    /// Puts this pair after the others.
    fn with(mut self, key: &[u8], value: Form) -> Result<MapBuilder, AllocError>
        requires { is_name key.now ≡ true }
        ensures { IfOk result (λ p. pairs_in p ≡ pairs_in self ++ (key.now, view value) ∷ []) }
    {
        let name = Name::from_bytes(self.alloc, key)?;
        self.pairs.push((name, value))?;
        Ok(self)
    }

    /// The map.
    #[tactic(auto, using(edn_reader::proofs::Pairs::map_view))]
    fn into_form(self) -> Form
        ensures { view result ≡ spec.map_datum (pairs_in self) }
    {
        let MapBuilder { alloc: _, pairs } = self;
        Form::Map(pairs)
    }

    /// Puts the pair `:numbers` after the others, unless there are no numbers.
    fn with_numbers(self, numbers: &BTreeSet<u32>) -> Result<MapBuilder, AllocError>
        ensures pairs { IfOk result (λ p. pairs_in p
            ≡ pairs_in self ++ spec.numbers_pairs numbers.now.keys) }
        ensures keys { OnOk result (AreNumberKeys numbers.now.keys) }
    {
        let form = numbers_form(self.alloc, numbers)?;
        if numbers.is_empty() {
            return Ok(self);
        }
        self.with(b"numbers", form)
    }

    /// Puts the pair of a search after the others, unless it is the default.
    fn with_search(self, trial: Trial) -> Result<MapBuilder, AllocError>
        ensures pairs { IfOk result (λ p. pairs_in p
            ≡ pairs_in self ++ spec.search_pairs trial.first trial.steps) }
        ensures typed { OnOk result (AreTypedSteps trial.steps) }
    {
        if trial.first == TryFirst::LeastNumber && trial.steps.is_none() {
            return Ok(self);
        }
        let form = search_form(self.alloc, trial)?;
        self.with(b"search", form)
    }

    /// Puts the pair of a count or of a search after the others.
    fn with_basis(self, basis: Basis) -> Result<MapBuilder, AllocError>
        ensures pairs { IfOk result (λ p. pairs_in p ≡ pairs_in self ++ spec.basis_pairs basis) }
        ensures typed { OnOk result (IsTypedBasis basis) }
    {
        match basis {
            Basis::Search(trial) => self.with_search(trial),
            Basis::Counting(count) => {
                let form = count_form(self.alloc, count)?;
                self.with(b"count", form)
            }
            Basis::Ahead { number, from } => {
                let form = ahead_form(self.alloc, number, from)?;
                self.with(b"count", form)
            }
        }
    }
}

/// A keyword.
fn keyword(alloc: Global, word: &[u8]) -> Result<Form, AllocError>
    requires { is_name word.now ≡ true }
    ensures { IfOk result (λ f. view f ≡ spec.keyword_datum word.now) }
{
    Ok(Form::Keyword(Name::from_bytes(alloc, word)?))
}

/// The integers in rising order.
fn integers_form(alloc: Global, integers: &BTreeSet<i64>) -> Result<Form, AllocError>
    ensures form { IfOk result (λ f. view f ≡ spec.integers_datum integers.now.keys) }
    ensures rising { OnOk result (AreIntegerKeys integers.now.keys) }
{
    let mut forms = Vec::new(alloc);
    for n in integers {
        forms.push(Form::Int(*n))?;
    }
    Ok(Form::Vector(forms))
}

/// The numbers of maps in rising order.
fn numbers_form(alloc: Global, numbers: &BTreeSet<u32>) -> Result<Form, AllocError>
    ensures form { IfOk result (λ f. view f ≡ spec.numbers_datum numbers.now.keys) }
    ensures keys { OnOk result (AreNumberKeys numbers.now.keys) }
{
    let mut forms = Vec::new(alloc);
    for n in numbers {
        forms.push(number(*n))?;
    }
    Ok(Form::Vector(forms))
}

/// Which values are kept: all, or a vector of them.
fn values_form(alloc: Global, values: &Values) -> Result<Form, AllocError>
    ensures form { IfOk result (λ f. view f ≡ spec.values_datum values.now) }
    ensures typed { OnOk result (AreTypedValues values.now) }
{
    match values {
        Values::All => keyword(alloc, b"all"),
        Values::Only(integers) => integers_form(alloc, integers),
    }
}

/// The pairs of a cut.
fn cut_pairs(alloc: Global, cut: &Cut) -> Result<MapBuilder, AllocError>
    ensures pairs { IfOk result (λ p. pairs_in p ≡ spec.cut_pairs cut.now) }
    ensures typed { OnOk result (IsTypedCut cut.now) }
{
    let none = MapBuilder::new(alloc);
    match cut {
        Cut::From(n) => none.with(b"from", number(*n)),
        Cut::Until(n) => none.with(b"until", number(*n)),
        Cut::Without { value, before } => none
            .with(b"without", Form::Int(*value))?
            .with(b"before", number(*before)),
        Cut::Keep { values, numbers } => none
            .with(b"keep", values_form(alloc, values)?)?
            .with_numbers(numbers),
        Cut::Cell {
            values,
            other,
            numbers,
        } => none
            .with(b"cell", values_form(alloc, values)?)?
            .with(b"other", Form::Int(*other))?
            .with_numbers(numbers),
        Cut::Entry {
            key,
            values,
            other,
            numbers,
        } => none
            .with(b"cell", values_form(alloc, values)?)?
            .with(b"key", Form::Int(*key))?
            .with(b"other", Form::Int(*other))?
            .with_numbers(numbers),
    }
}

/// The cuts, in order.
fn cuts_form(alloc: Global, cuts: &[Cut]) -> Result<Form, AllocError>
    ensures form { IfOk result (λ f. view f ≡ spec.cuts_datum cuts.now) }
    ensures typed { OnOk result (AllByRecursion IsTypedCut cuts.now) }
{
    let mut forms = Vec::new(alloc);
    for cut in cuts {
        forms.push(cut_pairs(alloc, cut)?.into_form())?;
    }
    Ok(Form::Vector(forms))
}

/// A count of a content.
fn count_form(alloc: Global, count: Count) -> Result<Form, AllocError>
    ensures form { IfOk result (λ f. view f
        ≡ spec.map_datum (spec.count_pairs count.counted count.from)) }
    ensures in_range { count.from ≤ max_number }
{
    let none = MapBuilder::new(alloc);
    let counted = match count.counted {
        Counted::Value(value) => none.with(b"value", Form::Int(value))?,
        Counted::Entry { key, value } => none
            .with(b"key", Form::Int(key))?
            .with(b"value", Form::Int(value))?,
        Counted::NoEntry(key) => none.with(b"key", Form::Int(key))?,
        Counted::Held => none.with(b"held", Form::Bool(true))?,
        Counted::Free => none.with(b"free", Form::Bool(true))?,
    };
    Ok(counted.with(b"from", number(count.from))?.into_form())
}

/// A count of what was ahead.
fn ahead_form(alloc: Global, removal: u32, from: u32) -> Result<Form, AllocError>
    ensures form { IfOk result (λ f. view f ≡ spec.map_datum (spec.ahead_pairs removal from)) }
    ensures in_range { (removal ≤ max_number) × (from ≤ max_number) }
{
    let ahead = MapBuilder::new(alloc).with(b"ahead", number(removal))?;
    if from == 0 {
        return Ok(ahead.into_form());
    }
    Ok(ahead.with(b"from", number(from))?.into_form())
}

/// The keyword that says which operation is tried first.
fn first_form(alloc: Global, first: TryFirst) -> Result<Form, AllocError>
    ensures { IfOk result (λ f. view f ≡ spec.keyword_datum (spec.first_word first)) }
{
    match first {
        TryFirst::LeastNumber => keyword(alloc, b"number"),
        TryFirst::LeastReturn => keyword(alloc, b"return"),
    }
}

/// How a part is searched.
fn search_form(alloc: Global, trial: Trial) -> Result<Form, AllocError>
    ensures form { IfOk result (λ f. view f ≡ spec.search_datum trial.first trial.steps) }
    ensures typed { OnOk result (AreTypedSteps trial.steps) }
{
    let first = MapBuilder::new(alloc).with(b"first", first_form(alloc, trial.first)?)?;
    match trial.steps {
        None => Ok(first.into_form()),
        Some(steps) => Ok(first.with(b"steps", number(steps))?.into_form()),
    }
}

/// The form of a reason.
fn reason_form(alloc: Global, reason: &Reason) -> Result<Form, AllocError>
    ensures form { IfOk result (λ f. view f ≡ spec.datum_of reason.now) }
    ensures typed { OnOk result (IsTypedReason reason.now) }
{
    let pairs = MapBuilder::new(alloc)
        .with(b"object", number(reason.object))?
        .with(b"cuts", cuts_form(alloc, &reason.cuts)?)?
        .with_basis(reason.basis)?;
    Ok(pairs.into_form())
}

/// The text, and after it the line of the reason.
#[tactic(auto, using(crate::proofs::Writing::datum_fits))]
fn with_line(alloc: Global, text: Vec<u8>, reason: &Reason) -> Result<Vec<u8>, AllocError>
    ensures text { IfOk result (λ v. v.items ≡ text.items ++ spec.reason_line reason.now) }
    ensures written { OnOk result (IsWritten reason.now) }
{
    let form = reason_form(alloc, reason)?;
    let mut sink = Out::new(text);
    let Ok(()) = write_form(&form, &mut sink) else {
        return Err(AllocError);
    };
    let mut line = sink.into_inner();
    line.push(b'\n')?;
    Ok(line)
}

/// The lines of the reasons, in order.
pub fn reason_lines(alloc: Global, reasons: &[Reason]) -> Result<Vec<u8>, AllocError>
    ensures text { IfOk result (λ v. v.items ≡ spec.reason_lines reasons.now) }
    // The lines read back as these reasons.
    ensures spelled { IfOk result (λ v. AreReasonsInRange reasons.now →
        SpellsReasons reasons.now v.items) }
{
    let mut text = Vec::new(alloc);
    for reason in reasons {
        text = with_line(alloc, text, reason)?;
    }
    Ok(text)
}
