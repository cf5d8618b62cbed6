// No code: the theorems that answer the user's three demands, over the definitions that the public contracts cite.
#![tactic(auto)]
