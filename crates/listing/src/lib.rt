// No code: the bytes of a plan's listing, document 01's "Listing", and what they tell. The functions that write them stand in crate `listing_code`.
#![tactic(auto)]
