// The song's part of a file, before its bar headers: version, texts, lyrics, page setup, channels and directions.
// Every public function is total: from a stopped place it reads nothing and hands the stop on, with nothing beside it.
#![tactic(auto)]

pub mod info;
pub mod setup;
pub mod version;
