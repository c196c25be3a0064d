// 01's figures, and samples of the classic oscillator: two tables of rows in specs/, in proofs/ one claim over each, and the Drift figure. There is nothing to run.
#![tactic(auto)]
