// No code: what is promised of a record that is kept while its list is edited stands in specs/.
#![tactic(auto)]
