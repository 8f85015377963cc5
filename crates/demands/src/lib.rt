// The customer's demands as theorems over the definitions that the gate's contracts cite: there is no code here.
#![tactic(auto)]
