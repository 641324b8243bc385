//! Types and groups by themselves, without a list of types: keys that equal groups share, chains of supertypes, subtyping and matching, gates and
//! limits; and lists of which copies can be kept: a part of `wasmparser`.
#![tactic(auto)]

pub mod canonical;
pub mod chain;
pub mod decision_laws;
pub mod examples;
pub mod gates;
pub mod group_key;
pub mod group_map;
pub mod key_laws;
pub mod known_types;
pub mod limits;
pub mod lookup;
pub mod matches;
pub mod snapshot_list;
pub mod subtyping;
pub mod with_rec_group;
