// Every refusal of a file at its exact place, and every limit at and just beyond its edge. There are tests here, and what they need.
#![tactic(auto)]

#[cfg(test)]
mod drum;
#[cfg(test)]
mod lengths;
#[cfg(test)]
mod numbers;
#[cfg(test)]
mod refusals;
#[cfg(test)]
mod words;
