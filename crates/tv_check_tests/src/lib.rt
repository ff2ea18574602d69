//! Tests of the checker that no file of cases can ask for: canonical texts of faulty descriptions and of certificates, limits,
//! plans, what is accepted after a refusal, and what is told of texts that no file of cases has. And why inputs refuse a text.
#![tactic(auto)]

#[cfg(test)]
mod acceptance;
#[cfg(test)]
mod broken_descriptions;
#[cfg(test)]
mod certificates;
#[cfg(test)]
mod count_edges;
#[cfg(test)]
mod explained;
#[cfg(test)]
mod large;
#[cfg(test)]
mod plans;
#[cfg(test)]
mod printing;
#[cfg(test)]
mod reasons;
