// The nine-intersection matrix and the theorem that each cell has the value that the table gives it: lemmas only. The code that computes it is in `cells`.
#![tactic(auto)]
