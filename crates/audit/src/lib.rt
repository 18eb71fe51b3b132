// Theory only, over all that is public: the bench examples and the worked job, demand 3, what record numbers decide, which part lists there are,
// the chains as paths of the graph, that no anchor is chosen, that a companions sheet is the search's table of pairs, and that a promise leaves nothing open. No code.
#![tactic(auto)]
