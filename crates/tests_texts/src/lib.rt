//! Tests of script_text, report_text, report_out, line_runner and raw_run, over what they show to callers.
#![tactic(auto)]

#[cfg(test)]
mod lines;
#[cfg(test)]
mod output;
#[cfg(test)]
mod raw;
#[cfg(test)]
mod scripts;
#[cfg(test)]
mod texts;
