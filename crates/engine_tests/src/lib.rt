//! Tests of trails, replays, marks on another schema, what an end writes, kept work items, schemas and changes that are refused, and
//! cases: what no clause says of them. No test holds a schema or a trail, which makes its proof dear: functions without a clause do,
//! and answer what is compared.
#![tactic(auto)]

#[cfg(test)]
mod adapting;
#[cfg(test)]
mod cases;
#[cfg(test)]
mod refusals;
#[cfg(test)]
mod replays;
#[cfg(test)]
mod schemas;
#[cfg(test)]
mod trails;
#[cfg(test)]
mod work_items;
#[cfg(test)]
mod writes;
