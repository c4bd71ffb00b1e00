// 01's and 02's worked examples, computed.
#![tactic(auto)]
