//! The audit sorter: the records of `audit` in the parts that the rules of `sorter` name.
ghost use Rattle.std.specs.Prelude.{◌≡◌, ◌<◌, nat_lt, length, map, IfOk, IfErr};
ghost use Rattle.tm_word.specs.Prelude.{Gives};
ghost use Rattle.tm_sort.specs.Records.{records_of};
ghost use Rattle.tm_sort.specs.Rules.{rules_of};
ghost use Rattle.tm_io.specs.declared.names.FileName.{FileName};
ghost use Rattle.tm_call.specs.Fetches.{content};
ghost use Rattle.tm_gen_laws.specs.Reading.{refused, status_cause, RefusedBy};
ghost use Rattle.tomoyo.specs.Sort.{of_audit, of_rules, few_rules, sort_reading, part_store, sort_outcome};
ghost use Rattle.tomoyo.specs.Call.{Allows, Refuses};
ghost use Rattle.tm_call.specs.declared.words.Command.{Command};

use std::alloc::Global;
use tm_call::{Outcome, Status, What, text_at};
use tm_io::{FileList, FileName};
use tm_list::{NoMemory, Seq};
use tm_sort::{
    Part, Record, RecordFault, Route, Rule, accepts, read_records, read_rules, routes_by, sorted,
    summary,
};
use tm_types::request::ScriptFault;
use tm_word::Text;

/// What is sorted: the rules in order, and the records in order.
#[derive(Drop)]
pub struct Sorting {
    pub rules: Seq<Rule>,
    pub records: Seq<Record>,
}

// Reads the records.
fn records_in(alloc: Global, texts: &FileList) -> Result<Seq<Record>, Status>
    ensures { Gives status_cause (λ records. records) result
        (of_audit (records_of (content texts.now FileName.Audit))) }
{
    match read_records(alloc, text_at(texts, FileName::Audit)) {
        Ok(records) => Ok(Seq::from_vec(records)),
        Err(RecordFault::Line(line)) => Err(Status::BadAudit(line)),
        Err(RecordFault::NoMemory) => Err(Status::OutOfMemory),
    }
}

// Reads the rules.
fn rules_in(alloc: Global, texts: &FileList) -> Result<Seq<Rule>, Status>
    ensures { Gives status_cause (λ rules. rules) result
        (of_rules (rules_of (content texts.now FileName.Sorter))) }
{
    match read_rules(alloc, text_at(texts, FileName::Sorter)) {
        Ok(rules) => Ok(Seq::from_vec(rules)),
        Err(ScriptFault::Line(line, kind)) => Err(Status::BadRules(line, kind)),
        Err(ScriptFault::NoMemory) => Err(Status::OutOfMemory),
    }
}

// What is sorted, where there are no more rules than 256.
fn few_rules(rules: Seq<Rule>, records: Seq<Record>) -> Result<Sorting, Status>
    ensures { Gives status_cause (λ sorting. sorting) result (few_rules rules records) }
{
    if rules.len() > 256 {
        return Err(Status::TooMany(What::Rules));
    }
    Ok(Sorting { rules, records })
}

// Reads the records and then the rules. The texts are dropped when they are read.
#[tactic(auto, unfolding(crate::specs::Sort::sort_reading))]
fn read_sort(alloc: Global, texts: FileList) -> Result<Sorting, Status>
    ensures { Gives status_cause (λ sorting. sorting) result (sort_reading texts) }
{
    let records = records_in(alloc, &texts)?;
    let rules = rules_in(alloc, &texts)?;
    few_rules(rules, records)
}

// The parts as files, by their numbers.
fn part_stores(alloc: Global, parts: Vec<Part>) -> Result<FileList, NoMemory>
    ensures { IfOk result (λ stores. stores ≡ map part_store parts.items) }
{
    let mut stores = FileList::new(alloc);
    for part in parts {
        let Part { number, text, .. } = part;
        stores.push((FileName::AuditPart(number), text))?;
    }
    Ok(stores)
}

// What is stored and put of what is sorted: each rule stands beside a closure that answers as the
// rule accepts.
fn sort_outcome(alloc: Global, sorting: &Sorting) -> Result<Outcome, NoMemory>
    ensures { IfOk result (λ outcome. outcome ≡ sort_outcome sorting.now) }
{
    let rules = sorting.rules.as_slice();
    let records = sorting.records.as_slice();
    let routes = routes_by(alloc, rules, |rule: &Rule| {
        Route::new(rule, move |item: &Record| accepts(rule, item))
    })?;
    let parts = sorted(alloc, rules, &routes, records)?;
    let line = Text::from_vec(summary(alloc, records.len(), &parts)?);
    let stores = part_stores(alloc, parts)?;
    Ok(Outcome { stores, line })
}

/// Sorts the records that were read by the rules that were read, or refuses them.
pub fn make_sort(alloc: Global, texts: FileList) -> Result<Outcome, Status>
    ensures made { IfOk result (Allows Command.Sort texts) }
    ensures refused { IfErr result (Refuses Command.Sort texts) }
{
    match read_sort(alloc, texts) {
        Err(status) => Err(status),
        Ok(sorting) => match sort_outcome(alloc, &sorting) {
            Ok(outcome) => Ok(outcome),
            Err(_) => Err(Status::OutOfMemory),
        },
    }
}
