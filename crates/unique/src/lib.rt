// No function: for each public function of the other crates, that its contract leaves one answer.
#![tactic(auto)]
