//! A search of a version.
ghost use Rattle.std.specs.Prelude.{◌≡◌, ◌≤◌, [], map, option_copied, sum_by, IfOk};
ghost use Rattle.part_columns.specs.Room.{asked_in, looks_in};
ghost use Rattle.josie_search.specs.Search.{answer_of, query_with, search_with};
ghost use Rattle.search_model.specs.Looks.{log};
ghost use Rattle.segment_core.specs.Versions.{live_of};

use crate::asked::{KeptSet, clear, fill, set_for, set_of};
use crate::cost::sum_costs;
use crate::next::may_hold;
use crate::part::search_part;
use crate::query::Asked;
use crate::room::{SearchRoom, Seats};
use crate::top::FirstColumns;
use column_set::{Name, QuerySet};
use cost_model::Chooser;
use no_memory::NoMemory;
use part_columns::{Answer, most_columns, most_probes};
use segment_core::{HashedQuery, Looks};
use std::alloc::Global;
use std::marker::Model;

/// A search that is ready to run and holds all the memory that it needs. Its model is the version and the query.
#[derive(Drop)]
pub struct Prepared<'a, 'q> {
    looks: Looks<'a>,
    query: Asked<'q>,
    tokens: Vec<Vec<u32>>,
    set: Option<KeptSet>,
    /// Room for what it costs to read the first lists of a part.
    sums: Vec<u64>,
    seats: Seats,
    top: FirstColumns<'a>,
}

impl<'a, 'q> Model for Prepared<'a, 'q> {
    ghost use Rattle.std.specs.Prelude.{◌≡◌, ◌<◌, [], length, map, vec_capacity, IfSome};
    ghost use Rattle.josie_search.specs.Ready.{IsFree, IsReady, IsReadySet};
    ghost use Rattle.josie_search.specs.Search.{search_with, SearchOf};

    ghost Value = { SearchOf };

    ghost view = { λ p. search_with p.looks.version p.query };

    ghost invariant = { λ p. (p.looks.log ≡ []) × IsReady p.looks.version.parts p.query p.looks.spare (map (λ tokens. tokens.items) p.tokens.items) p.seats.columns p.top × IsFree p.seats.most p.seats.columns p.seats.candidates × (length p.query.keys < vec_capacity p.sums) × IfSome p.set (λ set. IsReadySet set (map (λ tokens. tokens.items) p.tokens.items)) };
}

/// Prepares a search, and takes all that it needs. It takes anew: the query's tokens of each part; room for a sum for
/// each key of the query; the first k rows; and room in the log for as many looks as the search can take. In each part
/// these are one for each list of the query's tokens, plus one for each of their postings or one for each column of the
/// part, whichever are fewer. It uses what `room` has: a tally, a mark and room for four candidates for each column of
/// the part with the most columns; and a bit for each token up to the greatest of the query's. If the room has fewer
/// columns, its columns are let go and taken anew; if it has fewer tokens, its bits are let go, and taken anew unless
/// they are many for so few keys. The search leaves out the columns of the table named `except`, if any.
///
/// Returns `Err(NoMemory)` only if memory runs out, and the room is then lost; running the search takes no memory.
pub fn prepare<'a, 'q>(
    alloc: Global,
    mut looks: Looks<'a>,
    query: &'q QuerySet,
    k: u32,
    except: Option<&'q Name>,
    room: SearchRoom,
) -> Result<Prepared<'a, 'q>, NoMemory>
    requires log { looks.log ≡ [] }
    requires low { 1 ≤ k }
    requires high { k ≤ 10000 }
    ensures { IfOk result (λ prepared. prepared ≡ search_with looks.entry.version (query_with k query.now (option_copied except.entry))) }
{
    let tokens = ask_parts(alloc, &mut looks, query)?;
    let (seats, set) = room.into_parts();
    let set = set_for(alloc, query.len(), &tokens, set)?;
    let seats = Seats::serving(alloc, most_columns(&looks), seats)?;
    let top = FirstColumns::new(alloc, k)?;
    // A part has at most as many tokens of the query as the query has keys.
    let sums = Vec::with_capacity(alloc, query.len() as usize + 1)?;
    // A search reads at most as many lists as the query has keys.
    prove!(query.len() <= 4_194_304);
    Ok(Prepared {
        looks,
        query: Asked {
            keys: query,
            k,
            except,
        },
        tokens,
        set,
        sums,
        seats,
        top,
    })
}

// Returns the query's tokens of each part. Gives the log room for as many looks as a search for them can take.
fn ask_parts(
    alloc: Global,
    looks: &mut Looks<'_>,
    query: &QuerySet,
) -> Result<Vec<Vec<u32>>, NoMemory>
    ensures asked { IfOk result (λ asked. map (λ tokens. tokens.items) asked.items ≡ map (asked_in query.now) looks.old.version.parts) }
    ensures version { looks.new.version ≡ looks.old.version }
    ensures log { looks.new.log ≡ looks.old.log }
    ensures room { IfOk result (λ asked. sum_by (looks_in query.now) looks.old.version.parts ≤ looks.new.spare) }
{
    let hashed = HashedQuery::new(alloc, query, looks.parts())?;
    let asked = looks.tokens_of_parts(alloc, &hashed)?;
    for part in 0..looks.parts() {
        let tokens: &[u32] = &asked[part as usize];
        // Without a token there is no look.
        if tokens.is_empty() {
            continue;
        }
        let probes = most_probes(looks, part, tokens);
        looks.reserve_log(tokens.len() + probes as usize)?;
    }
    Ok(asked)
}

impl<'a, 'q> Prepared<'a, 'q> {
    /// Returns the answer to the query, and the room for the next search. The rows are, of the columns of the live
    /// tables that share a key with the query, the k that share the most (Zhu, Deng, Nargesian and Miller, JOSIE,
    /// SIGMOD 2019, problem statement), or all if there are fewer. They are ordered by greater overlap, then by the
    /// bytes of the table's name, then by those of the column's name, and then by place, which also settles ties for
    /// the last row. The columns of the excepted table, if any, are left out.
    ///
    /// The answer is the same for every chooser; the chooser decides which lists are read and which columns are probed
    /// for it. No list is read and no column is probed twice, and no list is read and no column probed in a part once
    /// its bounds show that none of its columns can come before the k-th known row. It takes no memory, and cannot
    /// fail.
    pub fn run<C: Chooser>(self, chooser: &C) -> (Answer<'a>, SearchRoom)
        ensures rows { result.0.rows ≡ answer_of (live_of self.entry.version.parts) self.entry.query }
        ensures log { result.0.looks.log ≡ log (C.says chooser.now) self.entry.query self.entry.version.parts }
        ensures version { result.0.looks.version ≡ self.entry.version }
    {
        let Prepared {
            mut looks,
            query,
            tokens,
            mut set,
            mut sums,
            mut seats,
            mut top,
        } = self;
        for part in 0..looks.parts() {
            let asked: &[u32] = &tokens[part as usize];
            // With too few tokens there is no look and no row: so it is with most parts of a lake that was not merged.
            if !may_hold(&top, asked) {
                continue;
            }
            let (order, titles) = looks.order(part);
            top.enter(titles);
            sum_costs(&looks, part, asked, &mut sums);
            fill(&mut set, asked);
            search_part(
                &mut looks,
                part,
                &query,
                asked,
                set_of(&set),
                &sums,
                &mut seats.columns,
                &mut seats.candidates,
                order,
                &mut top,
                chooser,
            );
            seats.clear();
            clear(&mut set, asked);
        }
        let answer = Answer {
            rows: top.into_rows(),
            looks,
        };
        (answer, seats.into_room(set))
    }
}
