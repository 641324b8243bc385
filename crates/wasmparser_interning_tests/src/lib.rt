//! Tests of lists of types: which types match and which are subtypes, chains of declared supertypes, sizes and groups, sharing and snapshots, lists that are
//! large or full, and a module's groups. Without a proof they are slow: `rt try --test --seconds 400`.
#![tactic(auto)]

#[cfg(test)]
mod asked_list;
#[cfg(test)]
mod chains;
#[cfg(test)]
mod counted_groups;
#[cfg(test)]
mod earlier;
#[cfg(test)]
mod elements;
#[cfg(test)]
mod filled;
#[cfg(test)]
mod large_lists;
#[cfg(test)]
mod matching;
#[cfg(test)]
mod rec_groups;
#[cfg(test)]
mod references;
#[cfg(test)]
mod refusals;
#[cfg(test)]
mod sizes;
#[cfg(test)]
mod snapshot_list;
#[cfg(test)]
mod subtyping;
#[cfg(test)]
mod type_list;
