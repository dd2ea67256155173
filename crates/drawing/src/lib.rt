// Points, segments and meeting, over any places of the posts: definitions and laws, no running code.
#![tactic(auto)]
