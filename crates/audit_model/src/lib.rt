//! The report of a file as a reader of lines, which finds the first line that no legal run's report has: it takes the
//! reports of the file's legal runs and no others, and goes on wherever it stands. Then what each line, right or wrong,
//! says of that reader to who goes along a report line by line.
//! The crate has no function; its statements are in `specs/` and `proofs/`.
#![tactic(auto)]
