// Settled sheets, and what each of them comes to when it is carried out; what a bench refuses; methods by themselves.
#![tactic(auto)]

#[cfg(test)]
mod bench_tests;
#[cfg(test)]
mod method_tests;
#[cfg(test)]
mod refusal;
#[cfg(test)]
mod sheet_tests;
#[cfg(test)]
mod sheets;
