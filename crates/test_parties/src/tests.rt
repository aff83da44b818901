//! Texts of acts with their answers, and the runner that plays them.
mod acts;
mod advancing;
mod all_targets;
mod censuses;
mod codes;
mod counted;
mod host;
mod locks;
mod requests;
mod roles;
mod rows;
mod states;
